// How values look on the screen.
use std::fmt;
use task::Offset;

// An offset with its probe, in kelvins.
#[derive(Clone, Copy)]
pub struct Line(pub Offset);

impl fmt::Display for Line {
    fn fmt<W: fmt::Write>(&self, f: &mut fmt::Formatter<W>) -> fmt::Result {
        let Offset { serial, hundredths } = self.0;
        let sign = if hundredths < 0 { '-' } else { '+' };
        let size = hundredths.unsigned_abs();
        write!(
            f,
            "probe {serial}: {sign}{}.{:02} K",
            size / 100,
            size % 100
        )
    }
}
