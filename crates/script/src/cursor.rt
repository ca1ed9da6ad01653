// The words of a line, one after the other.
ghost use Rattle.std.specs.Prelude.{◌≡◌, ◌-◌, ◌^◌, ◌≤◌, [], ◌∷◌, IfOk, MatchOption, OnOk};
ghost use Rattle.std.specs.Iterator.{YieldsFirstRef, item_count};
ghost use Rattle.script.specs.Results.{Gives, first, only};
ghost use Rattle.script.specs.Values.{counted, value_of, key_of, name as name_field, byte as byte_field, number as number_field, space as space_field, string as string_field, text as text_value, count as count_value, bytes as bytes_value};
ghost use Rattle.script.specs.Words.{words_of};

use crate::reason::{Reason, Unread};
use crate::value;
use std::alloc::Global;
use std::marker::Model;

// What is left of a line, seen as the words in it.
#[derive(Drop)]
pub struct Cursor<'a> {
    rest: &'a str,
}

impl<'a> Model for Cursor<'a> {
    ghost use Rattle.std.specs.Prelude.{ℕ, List};
    ghost use Rattle.script.specs.Words.{words_of};

    ghost Value = { List (List ℕ) };

    ghost view = { λ c. words_of c.rest.now };
}

// The first word of a text, and what follows it.
fn first_word(text: &str) -> Option<(&str, &str)>
    ensures { MatchOption result (words_of text.now ≡ []) (λ p. words_of text.now ≡ p.0.now ∷ words_of p.1.now) }
{
    let text = text.trim_start_matches(' ');
    if text.is_empty() {
        return None;
    }
    match text.split_once(' ') {
        Some(parts) => Some(parts),
        None => Some((text, "")),
    }
}

impl<'a> Iterator for Cursor<'a> {
    type Item = &'a str;

    ghost next_gives = { YieldsFirstRef (λ c. c) };

    ghost remaining = { item_count (λ c. c) };

    fn next(&mut self) -> Option<&'a str> {
        let (word, rest) = first_word(self.rest)?;
        self.rest = rest;
        Some(word)
    }
}

impl<'a> Cursor<'a> {
    // At the start of a line.
    pub fn new(line: &'a str) -> Cursor<'a>
        ensures { result ≡ words_of line.now }
    {
        Cursor { rest: line }
    }

    // The next word, which has to be there.
    pub fn word(&mut self) -> Result<&'a str, Unread>
        ensures begins { IfOk result (λ word. self.old ≡ word.now ∷ self.new) }
        ensures says { Gives (λ word. record { value = text_value word.now; rest = self.new }) (first (value_of name_field) self.old) result }
    {
        self.next().ok_or(Unread::Because(Reason::WordMissing))
    }

    // The next word as a number, which is at most the given one.
    fn at_most(&mut self, most: u64) -> Result<u64, Unread>
        ensures bound { IfOk result (λ n. n ≤ most) }
        ensures says { Gives (λ n. record { value = count_value n; rest = self.new }) (first (counted most) self.old) result }
    {
        let word = self.word()?;
        Ok(value::number(word, most)?)
    }

    // The next word as a number from 0 to 255. This and the two below have one body in `at_most`; each is named for the field that it reads.
    pub fn byte(&mut self) -> Result<u8, Unread>
        ensures { Gives (λ n. record { value = count_value n; rest = self.new }) (first (value_of byte_field) self.old) result }
    {
        Ok(self.at_most(255)? as u8)
    }

    // The next word as a number of 64 bits.
    pub fn number(&mut self) -> Result<u64, Unread>
        ensures { Gives (λ n. record { value = count_value n; rest = self.new }) (first (value_of number_field) self.old) result }
    {
        self.at_most(u64::MAX)
    }

    // The next word as the length of an output buffer.
    pub fn space(&mut self) -> Result<usize, Unread>
        ensures { Gives (λ n. record { value = count_value n; rest = self.new }) (first (value_of space_field) self.old) result }
    {
        Ok(self.at_most(65_536)? as usize)
    }

    // The next word as a string of bytes.
    pub fn bytes(&mut self, heap: Global) -> Result<Vec<u8>, Unread>
        ensures { Gives (λ v. record { value = bytes_value v.items; rest = self.new }) (first (value_of string_field) self.old) result }
    {
        let word = self.word()?;
        value::bytes(heap, word)
    }

    // The next word as a key.
    pub fn key(&mut self, heap: Global) -> Result<[u8; 16], Unread>
        ensures { Gives (λ k. record { value = k; rest = self.new }) (first key_of self.old) result }
    {
        let word = self.word()?;
        value::key(heap, word)
    }

    // No word may follow.
    pub fn end(&mut self) -> Result<(), Unread>
        ensures none { OnOk result (self.old ≡ []) }
        ensures says { Gives (λ u. u) (only tt self.old) result }
    {
        match self.next() {
            Some(_) => Err(Unread::Because(Reason::WordTooMany)),
            None => Ok(()),
        }
    }
}
