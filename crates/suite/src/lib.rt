// The choice of cipher and masking at run time.
#![tactic(auto)]

mod ciphers;
mod maskings;
mod settings;

pub use ciphers::{AnyCipher, Plain};
pub use maskings::AnyMasking;
pub use settings::{CipherSetting, MaskingSetting, PlainSetting, UnknownMasking};
