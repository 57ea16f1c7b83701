//! The refusal of all stations of a file: that of the first that is refused, and its name.

ghost use Rattle.std.specs.Prelude.{◌≡◌, [], None};
ghost use Rattle.book_answers.specs.Refusals as spec;
ghost use Rattle.station_compare.specs.Refusals.{unhinted};
ghost use Rattle.station_compare.specs.declared.fault.CompareFault.TheVariants.{Memory, Write};

use adjust_kernel::{LONGEST_NAME, Name};
use arrayvec::ArrayVec;
use byte_ends::Failed;
use station_compare::{CompareFault, LONGEST_REFUSAL, Refusal};
use std::alloc::AllocError;

/// Why nothing is answered of the stations of a file.
#[derive(Drop)]
pub struct StationRefusal {
    /// What is answered of the first station that is refused, or of the file.
    pub refusal: Refusal,
    /// The name of that station; none where the file, or no one station, is refused.
    pub station: Option<Name>,
}

impl From<CompareFault> for StationRefusal {
    ghost from_gives = { λ fault given.
        given ≡ record { refusal = unhinted fault; station = None } };

    /// The refusal for this fault, of no one station.
    fn from(fault: CompareFault) -> StationRefusal {
        StationRefusal {
            refusal: Refusal::from(fault),
            station: None,
        }
    }
}

impl From<AllocError> for StationRefusal {
    ghost from_gives = { λ _ given.
        given ≡ record { refusal = unhinted Memory; station = None } };

    fn from(_: AllocError) -> StationRefusal {
        StationRefusal::from(CompareFault::Memory)
    }
}

impl From<Failed> for StationRefusal {
    ghost from_gives = { λ _ given.
        given ≡ record { refusal = unhinted Write; station = None } };

    fn from(_: Failed) -> StationRefusal {
        StationRefusal::from(CompareFault::Write)
    }
}

/// Bytes of the line that names a station, at most: `note: station `, the name, a line feed.
const LONGEST_STATION_NOTE: usize = 14 + LONGEST_NAME + 1;

/// Bytes of the text of such a refusal, at most.
pub const LONGEST_STATION_REFUSAL: usize = LONGEST_REFUSAL + LONGEST_STATION_NOTE;

/// The text of such a refusal, in no memory but its own.
pub type StationRefusalText = ArrayVec<u8, LONGEST_STATION_REFUSAL>;

/// The text of a refusal: its line and its hint, and a line that names the station.
pub fn refusal_text(refused: &StationRefusal) -> StationRefusalText
    ensures { result.items ≡ spec.named_refusal_text refused.now }
{
    let own = station_compare::refusal_text(&refused.refusal);
    let mut text = StationRefusalText::new();
    text.try_extend_from_slice(own.as_slice()).unwrap();
    if let Some(name) = refused.station {
        text.try_extend_from_slice(b"note: station ").unwrap();
        text.try_extend_from_slice(name.bytes()).unwrap();
        text.try_push(b'\n').unwrap();
    }
    text
}
