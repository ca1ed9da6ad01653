// Calls whose cipher and masking are chosen at run time: the choice is made here, once, and a call is a struct of its arguments
// with one generic method.
ghost use Rattle.std.specs.Prelude.{◌≡◌, ℕ, List};
ghost use Rattle.mode.specs.Sealing.{Maps};
ghost use Rattle.mode.specs.Pairs.{maps};
ghost use Rattle.capi.specs.Choices.{forward_under, backward_under, masked_by, maps_under};

use crate::choices::{Choice, CipherChoice, KeyedCipher, MaskingChoice};
use aes::Aes128;
use cipher::{Cipher, Speck};
use masking::{Doubling, Masking, Tower};
use mode::Pair;

// A call over any cipher.
pub(crate) trait CipherCall {
    type Answer;

    // What it writes and answers, by the cipher's two maps.
    ghost gives: { Self → (ℕ → ℕ) → (ℕ → ℕ) → List ℕ → List ℕ → Self.Answer → Type 0 };

    fn with<C: Cipher + Drop>(self, cipher: C, bytes: &mut [u8]) -> Self::Answer
        ensures { gives self (C.forward cipher) (C.backward cipher) bytes.old bytes.new result };
}

// A call over any pair.
pub(crate) trait PairCall {
    type Answer;

    // What it writes and answers, by the pair's maps.
    ghost gives: { Self → Maps → List ℕ → List ℕ → Self.Answer → Type 0 };

    fn with<C: Cipher, M: Masking>(self, pair: &Pair<C, M>, out: &mut [u8]) -> Self::Answer
        ensures { gives self (maps C.Cipher M.Masking pair.now) out.old out.new result };
}

impl<'a> KeyedCipher<'a> {
    // Calls under this cipher.
    pub(crate) fn run<F: CipherCall>(self, call: F, bytes: &mut [u8]) -> F::Answer
        ensures { F.gives call (forward_under self.entry.key.now self.entry.cipher) (backward_under self.entry.key.now self.entry.cipher) bytes.old bytes.new result }
    {
        match self.cipher {
            CipherChoice::Aes => call.with(Aes128::new(*self.key), bytes),
            CipherChoice::Speck => call.with(Speck::new(*self.key), bytes),
        }
    }
}

// A call over a pair, where the masking is chosen and the cipher is to come.
struct Masked<F> {
    masking: MaskingChoice,
    call: F,
}

impl<F: PairCall> CipherCall for Masked<F> {
    type Answer = F::Answer;

    ghost gives = { λ it forward backward was out answer. F.gives it.call (masked_by it.masking forward backward) was out answer };

    fn with<C: Cipher + Drop>(self, cipher: C, bytes: &mut [u8]) -> F::Answer {
        let Masked { masking, call } = self;
        match masking {
            MaskingChoice::Doubling => call.with(&Pair::new(cipher, Doubling), bytes),
            MaskingChoice::Tower => call.with(&Pair::new(cipher, Tower), bytes),
        }
    }
}

impl<'a> Choice<'a> {
    // Calls over the pair that was chosen.
    pub(crate) fn run<F: PairCall>(self, call: F, out: &mut [u8]) -> F::Answer
        ensures { F.gives call (maps_under self.entry.keyed.cipher self.entry.masking self.entry.keyed.key.now) out.old out.new result }
    {
        let masking = self.masking;
        self.keyed.run(Masked { masking, call }, out)
    }
}
