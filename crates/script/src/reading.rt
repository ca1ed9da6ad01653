// Reading a line.
ghost use Rattle.std.specs.Prelude.{◌≡◌, ℕ, List, [], ◌∷◌, IfOk, codes};
ghost use Rattle.script.specs.Calls.{Takes, Reads};
ghost use Rattle.script.specs.Said.{call_of, said};
ghost use Rattle.script.specs.Lines.{last_key_of, plain_of, cipher_of, masking_of, words_meaning, line_meaning, meaning};
ghost use Rattle.script.specs.Results.{Gives};
ghost use Rattle.script.specs.Values.{values_of, name as name_field, text as text_value};
ghost use Rattle.script.specs.Words.{words_of};

use crate::call::{Call, Line};
use crate::cursor::Cursor;
use crate::reason::{Reason, Unread};
use std::alloc::Global;
use suite::{CipherSetting, MaskingSetting, PlainSetting};

// A key, which is the last word.
fn last_key(heap: Global, words: &mut Cursor<'_>) -> Result<[u8; 16], Unread>
    ensures { Gives (λ k. k) (last_key_of words.old) result }
{
    let key = words.key(heap)?;
    words.end()?;
    Ok(key)
}

// The cipher that a word names, with its key where it has one.
fn plain(heap: Global, word: &str, words: &mut Cursor<'_>) -> Result<PlainSetting, Unread>
    ensures { Gives (λ p. p) (plain_of word.now words.old) result }
{
    match word {
        "identity" => {
            words.end()?;
            Ok(PlainSetting::Identity)
        }
        "aes" => Ok(PlainSetting::Aes(last_key(heap, words)?)),
        "speck" => Ok(PlainSetting::Speck(last_key(heap, words)?)),
        _ => Err(Unread::Because(Reason::NotACipher)),
    }
}

fn cipher(heap: Global, words: &mut Cursor<'_>) -> Result<CipherSetting, Unread>
    ensures { Gives (λ c. c) (cipher_of words.old) result }
{
    let first = words.word()?;
    match first {
        "inverse" => {
            let second = words.word()?;
            Ok(CipherSetting::Inverse(plain(heap, second, words)?))
        }
        _ => Ok(CipherSetting::Plain(plain(heap, first, words)?)),
    }
}

// The masking that a word names, which is the last one.
fn masking(words: &mut Cursor<'_>) -> Result<MaskingSetting, Unread>
    ensures { Gives (λ m. m) (masking_of words.old) result }
{
    let masking = words.word()?.parse()?;
    words.end()?;
    Ok(masking)
}

fn station<'a>(words: &mut Cursor<'a>) -> Result<Call<'a>, Unread>
    ensures takes { IfOk result (Takes (codes "station") words.old) }
    ensures says { Gives said (call_of (codes "station") words.old) result }
{
    let name = words.word()?;
    let own = words.byte()?;
    let peer = words.byte()?;
    let start = words.number()?;
    let floor = words.number()?;
    words.end()?;
    Ok(Call::Station {
        name,
        own,
        peer,
        start,
        floor,
    })
}

// A station's name and a ticket's label, which are the last words.
fn name_and_label<'a>(words: &mut Cursor<'a>) -> Result<(&'a str, &'a str), Unread>
    ensures takes { IfOk result (λ p. words.old ≡ p.0.now ∷ p.1.now ∷ []) }
    ensures says { Gives (λ p. text_value p.0.now ∷ text_value p.1.now ∷ []) (values_of (name_field ∷ name_field ∷ []) words.old) result }
{
    let name = words.word()?;
    let label = words.word()?;
    words.end()?;
    Ok((name, label))
}

fn seal<'a>(heap: Global, words: &mut Cursor<'a>) -> Result<Call<'a>, Unread>
    ensures takes { IfOk result (Takes (codes "seal") words.old) }
    ensures says { Gives said (call_of (codes "seal") words.old) result }
{
    let name = words.word()?;
    let ticket = words.word()?;
    let mode = words.byte()?;
    let clear = words.bytes(heap)?;
    let message = words.bytes(heap)?;
    let space = words.space()?;
    words.end()?;
    Ok(Call::Seal {
        name,
        ticket,
        mode,
        clear,
        message,
        space,
    })
}

fn open<'a>(heap: Global, words: &mut Cursor<'a>) -> Result<Call<'a>, Unread>
    ensures takes { IfOk result (Takes (codes "open") words.old) }
    ensures says { Gives said (call_of (codes "open") words.old) result }
{
    let name = words.word()?;
    let frame = words.bytes(heap)?;
    let space = words.space()?;
    words.end()?;
    Ok(Call::Open { name, frame, space })
}

fn parts<'a>(heap: Global, words: &mut Cursor<'a>) -> Result<Call<'a>, Unread>
    ensures takes { IfOk result (Takes (codes "parts") words.old) }
    ensures says { Gives said (call_of (codes "parts") words.old) result }
{
    let frame = words.bytes(heap)?;
    words.end()?;
    Ok(Call::Parts { frame })
}

fn state<'a>(words: &mut Cursor<'a>) -> Result<Call<'a>, Unread>
    ensures takes { IfOk result (Takes (codes "state") words.old) }
    ensures says { Gives said (call_of (codes "state") words.old) result }
{
    let name = words.word()?;
    words.end()?;
    Ok(Call::State { name })
}

// The call that the words after its kind say.
fn call<'a>(heap: Global, kind: &str, words: &mut Cursor<'a>) -> Result<Call<'a>, Unread>
    ensures takes { IfOk result (Takes kind.now words.old) }
    ensures says { Gives said (call_of kind.now words.old) result }
{
    match kind {
        "station" => station(words),
        "reserve" => {
            let (name, ticket) = name_and_label(words)?;
            Ok(Call::Reserve { name, ticket })
        }
        "giveup" => {
            let (name, ticket) = name_and_label(words)?;
            Ok(Call::GiveUp { name, ticket })
        }
        "seal" => seal(heap, words),
        "open" => open(heap, words),
        "parts" => parts(heap, words),
        "state" => state(words),
        _ => Err(Unread::Because(Reason::UnknownWord)),
    }
}

// What the words of a line say, by the first of them.
fn words_say<'a>(heap: Global, mut words: Cursor<'a>) -> Result<Line<'a>, Unread>
    ensures reads { (text : List ℕ) → words_of text ≡ words.entry → IfOk result (Reads text) }
    ensures says { Gives meaning (words_meaning words.entry) result }
{
    let Some(kind) = words.next() else {
        return Ok(Line::Nothing);
    };
    match kind {
        "cipher" => Ok(Line::Cipher(cipher(heap, &mut words)?)),
        "masking" => Ok(Line::Masking(masking(&mut words)?)),
        _ => Ok(Line::Call(call(heap, kind, &mut words)?)),
    }
}

// What a line says: nothing, a setting or exactly one call, or the reason why it cannot be read.
pub fn read(heap: Global, line: &str) -> Result<Line<'_>, Unread>
    ensures reads { IfOk result (Reads line.now) }
    ensures says { Gives meaning (line_meaning line.now) result }
{
    if line.starts_with('#') {
        return Ok(Line::Nothing);
    }
    words_say(heap, Cursor::new(line))
}
