// Any of the maskings.
ghost use Rattle.suite.specs.Maskings.{onward_of, inward_of, masking_undo};

use block::Block;
use masking::{Doubling, Idle, Masking, Tower};

// The masking that is chosen. Each method matches for itself, as those of Plain do and for the same reason.
#[derive(Clone, Copy, PartialEq, Eq, Debug)]
pub enum AnyMasking {
    Idle,
    Doubling,
    Tower,
}

impl Masking for AnyMasking {
    ghost onward = { onward_of };

    ghost inward = { inward_of };

    ghost laws = { masking_undo };

    fn step(&self, block: Block) -> Block {
        match self {
            AnyMasking::Idle => Idle.step(block),
            AnyMasking::Doubling => Doubling.step(block),
            AnyMasking::Tower => Tower.step(block),
        }
    }

    fn back(&self, block: Block) -> Block {
        match self {
            AnyMasking::Idle => Idle.back(block),
            AnyMasking::Doubling => Doubling.back(block),
            AnyMasking::Tower => Tower.back(block),
        }
    }
}
