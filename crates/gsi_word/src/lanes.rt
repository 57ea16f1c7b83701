//! Bytes that are looked at together, in the lanes of one load.

ghost use Rattle.std.specs.Prelude.{◌≡◌, ◌==◌, if◌then◌else◌};
ghost use Rattle.std.specs.Int.{trailing_zeros, w64};

/// The place of the lowest bit of a mask that is set, or how many lanes there are.
#[inline(always)]
pub(crate) fn lowest_lane(mask: u64, lanes: usize) -> usize
    ensures { result ≡ (if mask == 0 then lanes else trailing_zeros w64 mask) }
{
    if mask == 0 {
        lanes
    } else {
        mask.trailing_zeros() as usize
    }
}
