// Frames: a head of 32 bytes, a clear part, a sealed part and a tag.
#![tactic(auto)]

mod fault;
mod pieces;
mod sealing;

pub use fault::{FrameFault, HeadField};
pub use pieces::{FrameParts, Piece, parts};
pub use sealing::{open, seal};
