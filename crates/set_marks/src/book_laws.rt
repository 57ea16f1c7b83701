//! Laws of what the book finds in a file with code lines. The functions do nothing.

ghost use Rattle.std.specs.Prelude.{◌≡◌, List, None, []};
ghost use Rattle.gsi_word.specs.Blocks.{GsiBlock};
ghost use Rattle.station_book.specs.Limits.{FaceLimits};
ghost use Rattle.station_book.specs.Faults.{fault_at_end};
ghost use Rattle.set_marks.specs.Found.{found_in, HasNoFaultOfCodes};
ghost use Rattle.set_marks.specs.MarkedBlocks.{MarkedStation, marked_blocks, grown, told_of};
ghost use Rattle.set_marks.specs.MarkedBlocks.{AreMarkedStations, HaveNoCode};

/// In blocks that are marked station by station and set by set the book finds each reading at the
/// station and in the set in which it stands, and those outside in none; no block, and not the end,
/// has a fault that comes of the code lines.
pub fn found_as_marked()
    ensures found { (before : List GsiBlock) (stations : List MarkedStation)
        → HaveNoCode before → AreMarkedStations [] stations
        → found_in (grown [] (marked_blocks before stations)) ≡ told_of before stations }
    ensures faults { (limits : FaceLimits) (before : List GsiBlock)
        (stations : List MarkedStation) → HaveNoCode before → AreMarkedStations [] stations
        → HasNoFaultOfCodes limits (grown [] (marked_blocks before stations)) }
    ensures end { (before : List GsiBlock) (stations : List MarkedStation)
        → HaveNoCode before → AreMarkedStations [] stations
        → fault_at_end (grown [] (marked_blocks before stations)) ≡ None }
{}
