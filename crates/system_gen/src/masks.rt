//! OIL: standard object EVENT, attribute MASK.

ghost use Rattle.std.specs.Prelude.{◌≡◌, ◌⊎◌, IfOk, IfErr, Ok, Err};
ghost use Rattle.system_gen.specs.Masks.{all_masks, first_free, lowest_free, mask_among, written};
ghost use Rattle.system_gen.specs.declared.fault.GenFault.TheVariants.{Memory};

use crate::fault::GenFault;
use oil_reader::{EventObject, Mask};
use osek_base::MAX_EVENTS;
use std::alloc::Global;

/// The bits of a mask, from the lowest on.
const BITS: [u32; MAX_EVENTS] = [
    0x1, 0x2, 0x4, 0x8, 0x10, 0x20, 0x40, 0x80, 0x100, 0x200, 0x400, 0x800, 0x1000, 0x2000, 0x4000,
    0x8000, 0x10000, 0x20000, 0x40000, 0x80000, 0x100000, 0x200000, 0x400000, 0x800000, 0x1000000,
    0x2000000, 0x4000000, 0x8000000, 0x10000000, 0x20000000, 0x40000000, 0x80000000,
];

/// The mask of each event. AUTO gets the lowest bit that is in no written mask and in no AUTO mask
/// of an earlier event.
pub(crate) fn masks(alloc: Global, events: &[EventObject]) -> Result<Vec<u32>, GenFault>
    ensures made { IfOk result (λ masks. all_masks events.now ≡ Ok masks.items) }
    ensures refused { IfErr result (λ e. (e ≡ Memory) ⊎ (all_masks events.now ≡ Err e)) }
{
    let mut masks = Vec::new(alloc);
    let mut taken = written(events);
    for event in events {
        let Some(mask) = mask_among(taken, event.mask) else {
            return Err(GenFault::Mask(event.name.clone()?));
        };
        taken |= mask;
        masks.push(mask)?;
    }
    Ok(masks)
}

/// The bits of all masks that are written as numbers.
fn written(events: &[EventObject]) -> u32
    ensures { result ≡ written 0 events.now }
{
    let mut taken = 0;
    for event in events {
        if let Mask::Bits(mask) = event.mask {
            taken |= mask;
        }
    }
    taken
}

/// The mask of an event, where these bits are taken.
fn mask_among(taken: u32, mask: Mask) -> Option<u32>
    ensures { result ≡ mask_among taken mask }
{
    match mask {
        Mask::Auto => lowest_free(taken),
        Mask::Bits(mask) => Some(mask),
    }
}

/// The lowest bit that isn't taken.
fn lowest_free(taken: u32) -> Option<u32>
    ensures { result ≡ lowest_free taken }
{
    first_free(taken, &BITS)
}

/// The first of some bits that isn't taken.
fn first_free(taken: u32, bits: &[u32]) -> Option<u32>
    ensures { result ≡ first_free taken bits.now }
{
    for bit in bits {
        if taken & *bit == 0 {
            return Some(*bit);
        }
    }
    None
}
