// How many calls were made, accepted and refused, and how many lines were not read.
ghost use Rattle.std.specs.Prelude.{◌≡◌, ◌+◌, ◌-◌, ◌^◌, ◌≤◌, min, Some};
ghost use Rattle.script.specs.Tallies.{tally_line};

use std::fmt;

// Each call is accepted or refused, and counted once. A count stops at the largest number of 64 bits.
#[derive(Clone, Copy)]
pub struct Tally {
    calls: u64,
    accepted: u64,
    refused: u64,
    unread: u64,
    ghost sum: { calls ≡ accepted + refused },
}

// One more in a count and in a part of it, unless the count is the largest number of 64 bits.
fn count(whole: &mut u64, part: &mut u64)
    requires { part.old ≤ whole.old }
    ensures whole { whole.new ≡ min (whole.old + 1) (2 ^ 64 - 1) }
    ensures part { part.new + whole.old ≡ part.old + whole.new }
{
    if *whole < u64::MAX {
        *whole += 1;
        *part += 1;
    }
}

impl Tally {
    // Nothing counted yet.
    pub fn new() -> Tally
        ensures calls { result.calls ≡ 0 }
        ensures unread { result.unread ≡ 0 }
    {
        Tally {
            calls: 0,
            accepted: 0,
            refused: 0,
            unread: 0,
        }
    }

    // Counts a call that was accepted.
    pub fn accept(&mut self)
        ensures calls { self.new.calls ≡ min (self.old.calls + 1) (2 ^ 64 - 1) }
        ensures refused { self.new.refused ≡ self.old.refused }
        ensures unread { self.new.unread ≡ self.old.unread }
    {
        count(&mut self.calls, &mut self.accepted);
    }

    // Counts a call that was refused.
    pub fn refuse(&mut self)
        ensures calls { self.new.calls ≡ min (self.old.calls + 1) (2 ^ 64 - 1) }
        ensures accepted { self.new.accepted ≡ self.old.accepted }
        ensures unread { self.new.unread ≡ self.old.unread }
    {
        count(&mut self.calls, &mut self.refused);
    }

    // Counts a line that was not read.
    pub fn pass(&mut self)
        ensures calls { self.new.calls ≡ self.old.calls }
        ensures accepted { self.new.accepted ≡ self.old.accepted }
        ensures unread { self.new.unread ≡ min (self.old.unread + 1) (2 ^ 64 - 1) }
    {
        self.unread = self.unread.saturating_add(1);
    }

    // How many calls were made: those that were accepted, and those that were refused.
    pub fn calls(&self) -> u64
        ensures value { result ≡ self.now.calls }
        ensures sum { result ≡ self.now.accepted + self.now.refused }
    {
        self.accepted + self.refused
    }
}

impl fmt::Display for Tally {
    ghost output = { λ t. Some (tally_line t.calls t.accepted t.refused t.unread) };

    fn fmt<W: fmt::Write>(&self, f: &mut fmt::Formatter<W>) -> fmt::Result {
        let Tally {
            calls,
            accepted,
            refused,
            unread,
        } = self;
        write!(
            f,
            "{calls} calls, {accepted} accepted, {refused} refused, {unread} lines not read"
        )
    }
}
