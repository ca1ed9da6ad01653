// What a sweep counts.
ghost use Rattle.std.specs.Prelude.{◌≡◌, ◌+◌, ◌^◌, ◌<◌, true, false};

use std::fmt;

// How many cases were run, and how many of them failed.
#[derive(Clone, Copy)]
pub struct Tally {
    cases: u64,
    failed: u64,
}

impl Tally {
    pub fn new() -> Tally
        ensures cases { result.cases ≡ 0 }
        ensures failed { result.failed ≡ 0 }
    {
        Tally {
            cases: 0,
            failed: 0,
        }
    }

    // One more case, which held or failed.
    pub fn note(&mut self, held: bool)
        ensures cases { self.old.cases + 1 < 2 ^ 64 → self.new.cases ≡ self.old.cases + 1 }
        ensures held { held ≡ true → self.new.failed ≡ self.old.failed }
        ensures failed { held ≡ false → self.old.failed + 1 < 2 ^ 64 → self.new.failed ≡ self.old.failed + 1 }
    {
        self.cases = self.cases.saturating_add(1);
        if !held {
            self.failed = self.failed.saturating_add(1);
        }
    }

    // The cases of another tally too.
    pub fn add(&mut self, other: Tally)
        ensures cases { self.old.cases + other.cases < 2 ^ 64 → self.new.cases ≡ self.old.cases + other.cases }
        ensures failed { self.old.failed + other.failed < 2 ^ 64 → self.new.failed ≡ self.old.failed + other.failed }
    {
        self.cases = self.cases.saturating_add(other.cases);
        self.failed = self.failed.saturating_add(other.failed);
    }
}

impl fmt::Display for Tally {
    fn fmt<W: fmt::Write>(&self, f: &mut fmt::Formatter<W>) -> fmt::Result {
        write!(f, "{} cases, {} failed", self.cases, self.failed)
    }
}
