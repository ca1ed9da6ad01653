// Probe offsets and their records of six bytes.
ghost use Rattle.std.specs.Prelude.{◌≡◌, ℕ, ◌*◌, ◌/◌, length, take, IfOk};
ghost use Rattle.task.specs.Records.{record_of, packed};

use std::alloc::{AllocError, Global};

// By how many hundredths of a kelvin the readings of one probe are to be corrected.
#[derive(Clone, Copy, PartialEq, Eq, Debug)]
pub struct Offset {
    pub serial: u32,
    pub hundredths: i16,
}

// The record: the serial in four bytes, then the offset in two.
impl From<Offset> for [u8; 6] {
    ghost from_gives = { λ offset bytes. bytes ≡ record_of offset };

    #[tactic(auto, using(crate::proofs::Packing::written))]
    fn from(offset: Offset) -> [u8; 6] {
        let [a, b, c, d] = offset.serial.to_be_bytes();
        let [e, f] = offset.hundredths.to_be_bytes();
        [a, b, c, d, e, f]
    }
}

// The offset that a record holds.
impl From<[u8; 6]> for Offset {
    ghost from_gives = { λ bytes offset. record_of offset ≡ bytes };

    #[tactic(auto, using(crate::proofs::Packing::reading))]
    fn from(bytes: [u8; 6]) -> Offset {
        let [a, b, c, d, e, f] = bytes;
        Offset {
            serial: u32::from_be_bytes([a, b, c, d]),
            hundredths: i16::from_be_bytes([e, f]),
        }
    }
}

impl Offset {
    // How many bytes a record has.
    pub const SIZE: usize = 6;
}

// The records of the offsets, one behind the other.
#[tactic(auto, using(crate::proofs::Packing::packed_next), unfolding(crate::specs::Records::packed))]
pub fn pack(heap: Global, offsets: &[Offset]) -> Result<Vec<u8>, AllocError>
    ensures { IfOk result (λ v. v.items ≡ packed offsets.now) }
{
    let mut bytes = Vec::new(heap);
    for offset in offsets {
        bytes.extend_from_slice(&<[u8; 6]>::from(*offset))?;
    }
    Ok(bytes)
}

// The offsets of the whole records in some bytes; a rest shorter than a record is left out.
#[tactic(auto, using(crate::proofs::Packing::unpacked))]
pub fn unpack(heap: Global, bytes: &[u8]) -> Result<Vec<Offset>, AllocError>
    ensures { IfOk result (λ v. packed v.items ≡ take (6 * (length bytes.now / 6)) bytes.now) }
{
    let (records, _) = bytes.as_chunks::<6>();
    records
        .iter()
        .map(|record| Offset::from(*record))
        .collect(heap)
}
