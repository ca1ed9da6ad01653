// Following the lines of a script.
ghost use Rattle.std.specs.Prelude.{◌≡◌, IfOk, string_bytes};
ghost use Rattle.session.specs.Counts.{Passes};
ghost use Rattle.script.specs.Lines.{meaning};
ghost use Rattle.session.specs.Counting.{New, Obeyed, Tried, Followed, not_read_text};

use crate::Session;
use crate::replies::{Reply, shown};
use crate::stations::Stations;
use script::{Line, NotReadLine, Reason, Tally, Unread};
use std::alloc::{AllocError, Global};

impl Session {
    // Before the first line there is no station, and nothing is counted.
    pub fn new(heap: Global) -> Session
        ensures { New result }
    {
        Session {
            stations: Stations::new(heap),
            tally: Tally::new(),
        }
    }

    // Does what a line says, and gives what is printed for it.
    fn obey(&mut self, heap: Global, line: Line<'_>) -> Result<String, Unread>
        ensures { Obeyed (meaning line.entry) self.old.tally self.new.tally result }
    {
        match line {
            Line::Nothing => {}
            Line::Cipher(cipher) => self.stations.cipher = cipher,
            Line::Masking(masking) => self.stations.masking = masking,
            Line::Call(call) => match self.stations.call(heap, &call)? {
                Reply::Accepted(text) => {
                    self.tally.accept();
                    return Ok(text);
                }
                Reply::Refused(text) => {
                    self.tally.refuse();
                    return Ok(text);
                }
            },
        }
        Ok(String::new(heap))
    }

    // Reads a line and does what it says.
    fn try_line(&mut self, heap: Global, bytes: &[u8]) -> Result<String, Unread>
        ensures { Tried bytes.now self.old.tally self.new.tally result }
    {
        let text = std::str::from_utf8(bytes).map_err(|_| Reason::NotText)?;
        let line = script::read(heap, text)?;
        self.obey(heap, line)
    }

    // Counts a line that is not read, and says why.
    fn not_read(&mut self, heap: Global, line: u64, reason: Reason) -> Result<String, AllocError>
        ensures passes { Passes self.old.tally self.new.tally }
        ensures text { IfOk result (λ text. string_bytes text ≡ not_read_text line reason) }
    {
        self.tally.pass();
        shown(heap, NotReadLine { line, reason })
    }

    // Does what the line of a number says, and gives what is printed for it.
    pub fn follow(&mut self, heap: Global, line: u64, bytes: &[u8]) -> Result<String, AllocError>
        ensures { IfOk result (λ text. Followed line bytes.now (string_bytes text) self.old.tally self.new.tally) }
    {
        match self.try_line(heap, bytes) {
            Ok(text) => Ok(text),
            Err(Unread::Because(reason)) => self.not_read(heap, line, reason),
            Err(Unread::Memory(error)) => Err(error),
        }
    }

    // Gives up every ticket still held, and hands out the counts.
    pub fn end(self) -> Tally
        ensures { result ≡ self.tally }
    {
        let Session {
            stations,
            tally: counted,
        } = self;
        stations.end();
        counted
    }
}
