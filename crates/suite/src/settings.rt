// A cipher and a masking as they are named: the values of a choice, before anything is made of them.
ghost use Rattle.std.specs.Prelude.{◌≡◌, Some, MatchResult, ◌≢◌};
ghost use Rattle.suite.specs.Ciphers.{forward_of, backward_of, plain_forward as forward_in, plain_backward as backward_in};
ghost use Rattle.suite.specs.Settings.{plain_forward, plain_backward, forward_for, backward_for, masking_for, word_of};
ghost use Rattle.suite.specs.declared.settings.MaskingSetting.{MaskingSetting};

use crate::ciphers::{AnyCipher, Plain};
use crate::maskings::AnyMasking;
use aes::Aes128;
use cipher::{Identity, Inverse, Speck};
use std::fmt;
use std::str::FromStr;

// A cipher as it is named, with its key where it has one.
#[derive(Clone, Copy)]
pub enum PlainSetting {
    Identity,
    Aes([u8; 16]),
    Speck([u8; 16]),
}

impl From<PlainSetting> for Plain {
    ghost from_gives = { λ setting cipher. (forward_in cipher ≡ plain_forward setting) × (backward_in cipher ≡ plain_backward setting) };

    fn from(setting: PlainSetting) -> Plain {
        match setting {
            PlainSetting::Identity => Plain::Identity(Identity),
            PlainSetting::Aes(key) => Plain::Aes(Aes128::new(key)),
            PlainSetting::Speck(key) => Plain::Speck(Speck::new(key)),
        }
    }
}

// That cipher, or its inverse.
#[derive(Clone, Copy)]
pub enum CipherSetting {
    Plain(PlainSetting),
    Inverse(PlainSetting),
}

impl From<CipherSetting> for AnyCipher {
    ghost from_gives = { λ setting cipher. (forward_of cipher ≡ forward_for setting) × (backward_of cipher ≡ backward_for setting) };

    fn from(setting: CipherSetting) -> AnyCipher {
        match setting {
            CipherSetting::Plain(plain) => AnyCipher::Forward(Plain::from(plain)),
            CipherSetting::Inverse(plain) => AnyCipher::Inverse(Inverse {
                inner: Plain::from(plain),
            }),
        }
    }
}

// The maskings that have a name.
#[derive(Clone, Copy)]
pub enum MaskingSetting {
    Doubling,
    Tower,
}

// A word that names no masking.
#[derive(Clone, Copy, PartialEq, Eq, Debug)]
pub struct UnknownMasking;

impl From<MaskingSetting> for AnyMasking {
    ghost from_gives = { λ setting masking. masking ≡ masking_for setting };

    fn from(setting: MaskingSetting) -> AnyMasking {
        match setting {
            MaskingSetting::Doubling => AnyMasking::Doubling,
            MaskingSetting::Tower => AnyMasking::Tower,
        }
    }
}

impl FromStr for MaskingSetting {
    type Err = UnknownMasking;

    ghost from_str_gives = { λ word r. MatchResult r (λ m. word ≡ word_of m) (λ _. (m : MaskingSetting) → word ≢ word_of m) };

    fn from_str(word: &str) -> Result<MaskingSetting, UnknownMasking> {
        match word {
            "doubling" => Ok(MaskingSetting::Doubling),
            "tower" => Ok(MaskingSetting::Tower),
            _ => Err(UnknownMasking),
        }
    }
}

impl fmt::Display for MaskingSetting {
    ghost output = { λ m. Some (word_of m) };

    fn fmt<W: fmt::Write>(&self, f: &mut fmt::Formatter<W>) -> fmt::Result {
        f.write_str(match self {
            MaskingSetting::Doubling => "doubling",
            MaskingSetting::Tower => "tower",
        })
    }
}
