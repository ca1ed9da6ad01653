// What a line of a script says.
use suite::{CipherSetting, MaskingSetting};

// A call, with the station's name, the ticket's label and what else it takes. Space is the length of the output buffer; the mode is a byte, as in
// Station::seal.
#[derive(Drop)]
pub enum Call<'a> {
    Station {
        name: &'a str,
        own: u8,
        peer: u8,
        start: u64,
        floor: u64,
    },
    Reserve {
        name: &'a str,
        ticket: &'a str,
    },
    GiveUp {
        name: &'a str,
        ticket: &'a str,
    },
    Seal {
        name: &'a str,
        ticket: &'a str,
        mode: u8,
        clear: Vec<u8>,
        message: Vec<u8>,
        space: usize,
    },
    Open {
        name: &'a str,
        frame: Vec<u8>,
        space: usize,
    },
    Parts {
        frame: Vec<u8>,
    },
    State {
        name: &'a str,
    },
}

// A line: nothing, a cipher or a masking for the stations made after it, or one call.
#[derive(Drop)]
pub enum Line<'a> {
    Nothing,
    Cipher(CipherSetting),
    Masking(MaskingSetting),
    Call(Call<'a>),
}
