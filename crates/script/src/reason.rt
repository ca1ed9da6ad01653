// Why a line is not read.
ghost use Rattle.std.specs.Prelude.{◌≡◌, Some};
ghost use Rattle.script.specs.Reasons.{text_of};
ghost use Rattle.script.specs.declared.reason.Reason.TheVariants.{NotAMasking};
ghost use Rattle.script.specs.declared.reason.Unread.TheVariants.{Because, Memory};

use std::alloc::AllocError;
use std::fmt;
use suite::UnknownMasking;

#[derive(Clone, Copy)]
pub enum Reason {
    NotText,
    UnknownWord,
    WordMissing,
    WordTooMany,
    NotHex,
    TooLong,
    NotAKey,
    NotANumber,
    NotACipher,
    NotAMasking,
    UnknownStation,
    UsedName,
    UnknownTicket,
    LabelInUse,
}

impl Reason {
    // The reason in plain words, which is what it prints, for callers that need no allocation.
    pub fn text(self) -> &'static str
        ensures { result.now ≡ text_of self }
    {
        match self {
            Reason::NotText => "the line is not text",
            Reason::UnknownWord =>
                "a line begins with cipher, masking, station, reserve, giveup, seal, open, parts or state",
            Reason::WordMissing => "a word is missing",
            Reason::WordTooMany => "a word too many",
            Reason::NotHex =>
                "a string is written as pairs of hexadecimal digits, or - where it is empty",
            Reason::TooLong => "a string has at most 65536 bytes",
            Reason::NotAKey => "a key has 16 bytes",
            Reason::NotANumber => "a number is out of its bounds, or not written in digits",
            Reason::NotACipher =>
                "a cipher is identity, aes or speck, with inverse before it or not",
            Reason::NotAMasking => "a masking is doubling or tower",
            Reason::UnknownStation => "no station has this name",
            Reason::UsedName => "a station has this name already",
            Reason::UnknownTicket => "no ticket has this label",
            Reason::LabelInUse => "a ticket has this label already",
        }
    }
}

impl fmt::Display for Reason {
    ghost output = { λ r. Some (text_of r) };

    fn fmt<W: fmt::Write>(&self, f: &mut fmt::Formatter<W>) -> fmt::Result {
        f.write_str(self.text())
    }
}

// Why reading stopped: the line cannot be read, or there is no memory for what it says.
#[derive(Clone, Copy)]
pub enum Unread {
    Because(Reason),
    Memory(AllocError),
}

impl From<Reason> for Unread {
    ghost from_gives = { λ why r. r ≡ Because why };

    fn from(reason: Reason) -> Unread {
        Unread::Because(reason)
    }
}

impl From<UnknownMasking> for Unread {
    ghost from_gives = { λ _ r. r ≡ Because NotAMasking };

    fn from(_: UnknownMasking) -> Unread {
        Unread::Because(Reason::NotAMasking)
    }
}

impl From<AllocError> for Unread {
    ghost from_gives = { λ error r. r ≡ Memory error };

    fn from(error: AllocError) -> Unread {
        Unread::Memory(error)
    }
}
