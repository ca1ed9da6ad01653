// A cipher and a masking together, and what they seal and open.
ghost use Rattle.std.specs.Prelude.{◌≡◌, ℕ, List, length, replicate, bit_xor};
ghost use Rattle.block.specs.Cut.{before, last_of, zero_filled};
ghost use Rattle.block.specs.Maps.{Computes};
ghost use Rattle.masking.specs.Steps.{times};
ghost use Rattle.mode.specs.Sealing.{delta_zero_of, delta_one_of, kappa as kappa_of, closing, header_tag_of, Seals};
ghost use Rattle.mode.specs.Pairs.{maps};
ghost use Rattle.mode.specs.Gives.{SealGives, BehindGives, OpenGives};
ghost use Rattle.mode.specs.Stands.{Stands};
ghost use Rattle.mode.specs.Body.{BlocksDone, BodyDone};

use crate::fault::ModeFault;
use crate::value::Mode;
use block::{Block, Cut, fill, load, store};
use cipher::Cipher;
use masking::Masking;

// A cipher and a masking, lent whole to the modes.
#[derive(Clone, Copy, Drop)]
pub struct Pair<C, M> {
    cipher: C,
    masking: M,
}

// The fixed string, whose block the cipher gives first.
const FIXED: Block = 1;

// What comes of the blocks before the last: their sums, as read and as written, and the mask of the last of them.
#[derive(Clone, Copy)]
struct Sums {
    read: Block,
    written: Block,
    mask: Block,
}

// What comes of the body of a message: the sums of its blocks before the last as read and as written, and the last block's mask and pad.
// It holds no Sums, whose mask is the one before.
#[derive(Clone, Copy)]
struct Body {
    read: Block,
    written: Block,
    mask: Block,
    pad: Block,
}

// A pair with the two blocks that its calls begin from: the cipher's block of the fixed string, and one step from it.
#[derive(Drop)]
struct Keyed<'a, C: Cipher, M: Masking> {
    pair: &'a Pair<C, M>,
    delta_zero: Block,
    delta_one: Block,
    ghost zero: { delta_zero ≡ delta_zero_of (maps C.Cipher M.Masking pair.now) },
    ghost one: { delta_one ≡ delta_one_of (maps C.Cipher M.Masking pair.now) },
}

// Mode, nonce, input and output stay parameters, and the lengths a requires: a struct that held the output's borrow would need a clause on what it leaves there.
impl<'a, C: Cipher, M: Masking> Keyed<'a, C, M> {
    // A pair with its two blocks.
    #[tactic(auto, unfolding(crate::specs::Sealing::delta_zero_of, crate::specs::Sealing::delta_one_of))]
    fn of(pair: &'a Pair<C, M>) -> Keyed<'a, C, M>
        ensures { result.pair.now ≡ pair.now }
    {
        let delta_zero = pair.cipher.encrypt(FIXED);
        let delta_one = pair.masking.step(delta_zero);
        Keyed {
            pair,
            delta_zero,
            delta_one,
        }
    }

    // What is added to the last block of a header, after n blocks with the mask of the last of them.
    fn closing(&self, n: usize, full: bool, kappa: Block, mask: Block) -> Block
        requires kappa { kappa ≡ kappa_of (maps C.Cipher M.Masking self.now.pair.now) }
        requires mask { mask ≡ times (M.onward self.now.pair.now.masking) n kappa }
        ensures { result ≡ closing (maps C.Cipher M.Masking self.now.pair.now) n full }
    {
        let masking = &self.pair.masking;
        match (n, full) {
            (0, false) => masking.back(kappa),
            (0, true) => masking.back(masking.back(kappa)),
            (_, false) => masking.step(mask),
            (_, true) => 0,
        }
    }

    // The tag of a header.
    fn header_tag(&self, header: &[u8]) -> Block
        ensures { result ≡ header_tag_of (maps C.Cipher M.Masking self.now.pair.now) header.now }
    {
        if header.is_empty() {
            return 0;
        }
        let Pair { cipher, masking } = self.pair;
        let kappa = cipher.encrypt(self.delta_zero);
        let cut = Cut::of(header.len());
        let (blocks, piece) = header.split_at(cut.at);
        let mut mask = kappa;
        let mut sum = 0;
        for block in blocks.as_chunks::<16>().0 {
            mask = masking.step(mask);
            sum ^= cipher.encrypt(load(block, 0) ^ mask);
        }
        let closing = self.closing(cut.before, piece.len() == 16, kappa, mask);
        cipher.encrypt(sum ^ fill(0x80, piece) ^ closing)
    }

    // Ciphers the blocks before the last, each between two masks.
    fn cipher_blocks<F: Fn(Block) -> Block>(
        &self,
        map: F,
        first: Block,
        input: &[u8],
        out: &mut [u8],
    ) -> Sums
        requires callable { F.IsAlwaysCallable map }
        requires as_long { length out.old ≡ length input.now }
        ensures { (e : ℕ → ℕ) → Computes (F.post map) e → BlocksDone (maps C.Cipher M.Masking self.now.pair.now) e first (before (length input.now)) input.now out.old out.new result }
    {
        let mut sums = Sums {
            read: 0,
            written: 0,
            mask: first,
        };
        // By index: tried with chunks_exact_mut, but std says nothing of what such a loop leaves in the output.
        for i in 0..Cut::of(input.len()).before {
            let mask = self.pair.masking.step(sums.mask);
            let x = load(input, 16 * i);
            let y = map(x ^ mask) ^ mask;
            store(out, 16 * i, y);
            sums = Sums {
                read: sums.read ^ x,
                written: sums.written ^ y,
                mask,
            };
        }
        sums
    }

    // Ciphers a whole string of bytes: the blocks before the last by the mode's map, the last piece with the pad.
    fn cipher_body(&self, mode: Mode, nonce: Block, input: &[u8], out: &mut [u8]) -> Body
        requires { length out.old ≡ length input.now }
        ensures { BodyDone (maps C.Cipher M.Masking self.now.pair.now) mode nonce input.now out.new result }
    {
        let Pair { cipher, masking } = self.pair;
        let gamma = cipher.encrypt(nonce ^ self.delta_one);
        let sums = match mode {
            Mode::Forward => self.cipher_blocks(|x| cipher.encrypt(x), gamma, input, out),
            Mode::Dual => self.cipher_blocks(|x| cipher.decrypt(x), gamma, input, out),
        };
        let cut = Cut::of(input.len());
        let mask = masking.step(sums.mask);
        let pad = cipher.encrypt(cut.bits as Block ^ mask);
        store(out, cut.at, fill(0, &input[cut.at..]) ^ pad);
        Body {
            read: sums.read,
            written: sums.written,
            mask,
            pad,
        }
    }

    // The message tag, from what the body left, the sum of the message's blocks before the last and the sealed bytes.
    fn message_tag(&self, body: Body, sum: Block, sealed: &[u8]) -> Block
        ensures { result ≡ C.forward self.now.pair.now.cipher (bit_xor (bit_xor (bit_xor (bit_xor sum (zero_filled (last_of sealed.now))) (M.onward self.now.pair.now.masking body.mask)) self.now.delta_one) body.pad) }
    {
        let Pair { cipher, masking } = self.pair;
        let last = fill(0, &sealed[Cut::of(sealed.len()).at..]);
        cipher.encrypt(sum ^ last ^ masking.step(body.mask) ^ self.delta_one ^ body.pad)
    }

    // Seals a message under its header, and answers the tag.
    fn seal(&self, mode: Mode, nonce: Block, header: &[u8], message: &[u8], out: &mut [u8]) -> Block
        requires { length out.old ≡ length message.now }
        ensures { Seals (maps C.Cipher M.Masking self.now.pair.now) mode nonce header.now message.now out.new result }
    {
        let body = self.cipher_body(mode, nonce, message, out);
        self.message_tag(body, body.read, out) ^ self.header_tag(header)
    }

    // Writes the only message that can seal to these bytes, and answers the only tag that it can have.
    fn open(&self, mode: Mode, nonce: Block, header: &[u8], sealed: &[u8], out: &mut [u8]) -> Block
        requires { length out.old ≡ length sealed.now }
        ensures seals { Seals (maps C.Cipher M.Masking self.now.pair.now) mode nonce header.now out.new sealed.now result }
        ensures only { (message : List ℕ) (tag : ℕ) → Seals (maps C.Cipher M.Masking self.now.pair.now) mode nonce header.now message sealed.now tag → tag ≡ result }
    {
        let body = self.cipher_body(mode.other(), nonce, sealed, out);
        self.message_tag(body, body.written, sealed) ^ self.header_tag(header)
    }
}

// Each clause names the maps of the pair: they can't be the value of an impl Model, since a function has no code.
impl<C: Cipher, M: Masking> Pair<C, M> {
    // A pair of the two. What the modes promise stands for every cipher and every masking that keep their laws.
    pub fn new(cipher: C, masking: M) -> Pair<C, M>
        ensures held { (result.cipher ≡ cipher) × (result.masking ≡ masking) }
        ensures stands { Stands (maps C.Cipher M.Masking result) }
    {
        Pair { cipher, masking }
    }

    // The tag of a header.
    pub fn header_tag(&self, header: &[u8]) -> Block
        ensures { result ≡ header_tag_of (maps C.Cipher M.Masking self.now) header.now }
    {
        Keyed::of(self).header_tag(header)
    }

    // Seals a message into an output buffer of its length, and answers the tag.
    pub fn seal(
        &self,
        mode: Mode,
        nonce: Block,
        header: &[u8],
        message: &[u8],
        out: &mut [u8],
    ) -> Result<Block, ModeFault>
        ensures { SealGives (maps C.Cipher M.Masking self.now) mode nonce header.now message.now out.old out.new result }
    {
        if out.len() != message.len() {
            return Err(ModeFault::OutputLength);
        }
        Ok(Keyed::of(self).seal(mode, nonce, header, message, out))
    }

    // Seals a message into the bytes behind its header, which is the first bytes of the buffer; answers the tag.
    pub fn seal_behind(
        &self,
        mode: Mode,
        nonce: Block,
        header_len: usize,
        message: &[u8],
        buf: &mut [u8],
    ) -> Result<Block, ModeFault>
        ensures { BehindGives (maps C.Cipher M.Masking self.now) mode nonce header_len message.now buf.old buf.new result }
    {
        let Some((header, sealed)) = buf.split_at_mut_checked(header_len) else {
            return Err(ModeFault::OutputLength);
        };
        self.seal(mode, nonce, header, message, sealed)
    }

    // Opens sealed bytes into an output buffer of their length, if a message seals to them and to the tag; else the buffer is zeroed.
    pub fn open(
        &self,
        mode: Mode,
        nonce: Block,
        header: &[u8],
        sealed: &[u8],
        tag: Block,
        out: &mut [u8],
    ) -> Result<(), ModeFault>
        ensures { OpenGives (maps C.Cipher M.Masking self.now) mode nonce header.now sealed.now tag out.old out.new result }
    {
        if out.len() != sealed.len() {
            return Err(ModeFault::OutputLength);
        }
        if Keyed::of(self).open(mode, nonce, header, sealed, out) == tag {
            return Ok(());
        }
        out.fill(0);
        Err(ModeFault::NotSealed)
    }
}
