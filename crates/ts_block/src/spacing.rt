//! Finds out whether the times of a block lie apart by one distance.
ghost use Rattle.std.specs.Prelude.{◌≡◌, ℤ, List};
ghost use Rattle.ts_block.specs.Appending.{values_start};
ghost use Rattle.ts_block.specs.Blocks.{IsBlockOf};
ghost use Rattle.ts_block.specs.Decoding.{IsSpacing};

use crate::number::decode_number;

/// Number of bytes of a block's count and first time.
const HEAD_BYTES: usize = 9;

/// Returns the nanoseconds from each time of a block to the next, or 0 if they differ or there is one point. Takes the
/// offset of the values. If all steps are one number, their bytes repeat those of the first step.
pub fn spacing_of(block: &[u8], values: usize) -> u64
    requires { (points : List (ℤ × ℤ)) × IsBlockOf block.now points × (values ≡ values_start points) }
    ensures { (points : List (ℤ × ℤ)) → IsBlockOf block.now points → IsSpacing result points }
{
    let steps = &block[HEAD_BYTES..values];
    if steps.is_empty() {
        return 0;
    }
    let (step, others) = decode_number(steps);
    if others == &steps[..others.len()] {
        step + 1
    } else {
        0
    }
}
