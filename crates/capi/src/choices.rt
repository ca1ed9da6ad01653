// The ciphers and maskings by their numbers, and a choice of both with its key. Enums of their own beside suite's settings: their values are C's
// numbers, and a key is lent, not held.
ghost use Rattle.std.specs.Prelude.{◌≡◌, length, IfOk};
ghost use Rattle.capi.specs.declared.choices.NotMade.TheVariants.{UnknownMode as NoMode};
ghost use Rattle.capi.specs.Choices.{CipherIs, Chooses, CipherOf, MaskingOf};

use mode::UnknownMode;

// Why a call is not made: nothing is written then.
#[derive(Clone, Copy, PartialEq, Eq, Debug)]
pub(crate) enum NotMade {
    // The cipher is neither 1 nor 2.
    UnknownCipher = 1,
    // The masking is neither 1 nor 2.
    UnknownMasking = 2,
    // The key has not 16 bytes.
    KeyLength = 3,
    // The nonce has not 16 bytes.
    NonceLength = 4,
    // The tag has not 16 bytes.
    TagLength = 5,
    // The mode is neither 1 nor 2.
    UnknownMode = 6,
}

impl From<UnknownMode> for NotMade {
    ghost from_gives = { λ _ why. why ≡ NoMode };

    fn from(_: UnknownMode) -> NotMade {
        NotMade::UnknownMode
    }
}

// A cipher by its number.
#[derive(Clone, Copy, PartialEq, Eq, Debug)]
pub(crate) enum CipherChoice {
    Aes = 1,
    Speck = 2,
}

impl TryFrom<u8> for CipherChoice {
    type Error = NotMade;

    ghost try_from_gives = { CipherOf };

    fn try_from(number: u8) -> Result<CipherChoice, NotMade> {
        match number {
            1 => Ok(CipherChoice::Aes),
            2 => Ok(CipherChoice::Speck),
            _ => Err(NotMade::UnknownCipher),
        }
    }
}

// A masking by its number.
#[derive(Clone, Copy, PartialEq, Eq, Debug)]
pub(crate) enum MaskingChoice {
    Doubling = 1,
    Tower = 2,
}

impl TryFrom<u8> for MaskingChoice {
    type Error = NotMade;

    ghost try_from_gives = { MaskingOf };

    fn try_from(number: u8) -> Result<MaskingChoice, NotMade> {
        match number {
            1 => Ok(MaskingChoice::Doubling),
            2 => Ok(MaskingChoice::Tower),
            _ => Err(NotMade::UnknownMasking),
        }
    }
}

// A cipher and its key.
#[derive(Clone, Copy)]
pub(crate) struct KeyedCipher<'a> {
    pub(crate) cipher: CipherChoice,
    pub(crate) key: &'a [u8; 16],
}

impl<'a> KeyedCipher<'a> {
    // The cipher of a number under a key, if the key has 16 bytes.
    pub(crate) fn of(cipher: u8, key: &'a [u8]) -> Result<KeyedCipher<'a>, NotMade>
        ensures cipher { CipherIs cipher (length key.now) result }
        ensures key { IfOk result (λ keyed. keyed.key.now ≡ key.now) }
    {
        let cipher = CipherChoice::try_from(cipher)?;
        let key = <&[u8; 16]>::try_from(key).map_err(|_| NotMade::KeyLength)?;
        Ok(KeyedCipher { cipher, key })
    }
}

// A cipher under its key, and a masking.
#[derive(Clone, Copy)]
pub(crate) struct Choice<'a> {
    pub(crate) keyed: KeyedCipher<'a>,
    pub(crate) masking: MaskingChoice,
}

impl<'a> Choice<'a> {
    // What two numbers and a key choose.
    pub(crate) fn of(cipher: u8, masking: u8, key: &'a [u8]) -> Result<Choice<'a>, NotMade>
        ensures choice { Chooses cipher masking (length key.now) result }
        ensures key { IfOk result (λ choice. choice.keyed.key.now ≡ key.now) }
    {
        let keyed = KeyedCipher::of(cipher, key)?;
        let masking = MaskingChoice::try_from(masking)?;
        Ok(Choice { keyed, masking })
    }
}
