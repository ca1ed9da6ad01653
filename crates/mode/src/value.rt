// The two modes and their numbers.
ghost use Rattle.std.specs.Prelude.{◌≡◌};
ghost use Rattle.mode.specs.Values.{mode_value, other_of, Decodes};

// Which of the two modes: the forward one seals by the cipher's forward map, its dual by the backward one.
#[derive(Clone, Copy, PartialEq, Eq, Debug)]
pub enum Mode {
    Forward = 1,
    Dual = 2,
}

// A number that no mode has.
#[derive(Clone, Copy, PartialEq, Eq, Debug)]
pub struct UnknownMode;

// The mode's number.
impl From<Mode> for u8 {
    ghost from_gives = { λ mode value. value ≡ mode_value mode };

    fn from(mode: Mode) -> u8 {
        mode as u8
    }
}

// The mode of a number, if there is one.
impl TryFrom<u8> for Mode {
    type Error = UnknownMode;

    ghost try_from_gives = { Decodes };

    fn try_from(value: u8) -> Result<Mode, UnknownMode> {
        match value {
            1 => Ok(Mode::Forward),
            2 => Ok(Mode::Dual),
            _ => Err(UnknownMode),
        }
    }
}

impl Mode {
    // The mode whose map on blocks undoes this one's.
    pub fn other(self) -> Mode
        ensures { result ≡ other_of self }
    {
        match self {
            Mode::Forward => Mode::Dual,
            Mode::Dual => Mode::Forward,
        }
    }
}
