//! What leads on from a fault of a station.

ghost use Rattle.std.specs.Prelude.{◌≡◌};
ghost use Rattle.station_mark.specs.LeadsOn as spec;

use set_marks::MarkKind;

/// What the user of a station with this fault does next.
pub(crate) fn leads_on(kind: MarkKind) -> &'static str
    ensures { result.now ≡ spec.leads_on kind }
{
    match kind {
        MarkKind::ReadTwice => "leave out the reading that does not count",
        MarkKind::FaceMissing =>
            "leave out a set that was broken off, or the target in it, or rename the target",
        MarkKind::OneTarget => "leave this set out, or give its target the right name",
        MarkKind::Order => "leave this set out, or put codes in by the field book",
        MarkKind::EndsElsewhere => {
            "leave this set out if it was broken off, or put codes in by the field book"
        }
        MarkKind::TooManySets | MarkKind::TooManyTargets | MarkKind::TooManyStations =>
            "mark copies that have a part each",
        MarkKind::OtherTargets => "mark the readings before and after in copies of their own",
        MarkKind::OneSet => "leave out the readings before the set",
        MarkKind::FirstFace =>
            "leave out the readings before the first set, or the checks after the last",
        MarkKind::MayBeShifted => "put codes in by the field book",
        MarkKind::PairAfter => "leave this pair out, or put codes in by the field book",
        MarkKind::SightsItself => {
            "put codes in by the field book, or give the target its right name"
        }
        MarkKind::StationTwice =>
            "state that it is the same set-up (--same-set-up) or another (--again)",
        MarkKind::NameTooLong => "give the station a shorter name",
        MarkKind::ByTargets =>
            "state how many sets were read to the end (--sets), and of one its targets (--targets)",
        MarkKind::SetCount => {
            "leave out a set that was broken off or read again, or state another number"
        }
        MarkKind::TargetCount => {
            "give a target that has two names the right one, or state another number"
        }
        MarkKind::TwoLines
        | MarkKind::HasCodes
        | MarkKind::HasSetUp
        | MarkKind::NoSetUp
        | MarkKind::Empty
        | MarkKind::NoSets
        | MarkKind::NoSuchStation => "see what the fault means by station_check explain",
    }
}
