//! How a run is refused.

ghost use Rattle.std.specs.Prelude.{◌≡◌};
ghost use Rattle.byte_ends.specs.Writers.{writer_change};
ghost use Rattle.station_check.specs.RunEndings.{WritesOrFails};
ghost use Rattle.station_compare.specs.Refusals as spec;

use crate::refusal::{Refusal, refusal_text};
use byte_ends::Sink;
use station_check::refuse_by;

/// Writes the line of a refusal and its hint by one call, and answers its status.
pub fn refuse<E: Sink>(refusal: &Refusal, err: &mut E) -> u8
    ensures status { result ≡ 1 }
    ensures text { WritesOrFails (spec.refusal_text refusal.now)
        (writer_change E.Sink err.old err.new) }
{
    refuse_by(refusal_text(refusal).as_slice(), err)
}
