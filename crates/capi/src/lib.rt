// Frames, modes and block ciphers over numbers and byte strings, as C calls them through capi_c. The parameters of the public calls
// are those of the interface for C, one by one; inside they travel in structs.
#![tactic(auto)]

mod blocks;
mod calls;
mod choices;
mod codes;
mod frames;
mod modes;

pub use blocks::{sealed_frames_decrypt_blocks, sealed_frames_encrypt_blocks};
pub use frames::{sealed_frames_open, sealed_frames_seal};
pub use modes::{sealed_frames_mode_open, sealed_frames_mode_seal};
