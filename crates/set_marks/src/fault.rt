//! Why a field file is not marked.

ghost use Rattle.std.specs.Prelude.{◌≡◌, ◌≤◌, length};
ghost use Rattle.adjust_kernel.specs.declared.bounds.TheConstants.{LONGEST_FAULT_NAME};
ghost use Rattle.set_marks.specs.FaultNames.{mark_kind_name, mark_fault_name};
ghost use Rattle.set_marks.specs.declared.fault.MarkFault.TheVariants.{File, Memory};

use adjust_kernel::{MOST_SETS, MOST_TARGETS};
use gsi_file::{FileFault, OutOfMemory};
use station_book::{BookKind, MOST_STATIONS};
use std::alloc::AllocError;
use thiserror::Error;

/// What keeps a file from being marked, at a block. Each says when it comes, and what to do about
/// it in a copy of the field file.
#[derive(Clone, Copy, Debug, PartialEq, Eq, Error)]
pub enum MarkKind {
    /// The line is two in one: a word 11 or 41, with which a line begins, stands within it. So it
    /// is where files were joined and the first of them had no line end after its last line: join
    /// them again with a line end between.
    #[error("a word 11 or 41 stands within the line: it is two lines in one")]
    TwoLines,
    /// The block has code 10, 20 or 30: the file is marked already, or the codes are the office's
    /// own, and a copy without them can be marked.
    #[error("the block has code 10, 20 or 30 already")]
    HasCodes,
    /// A station begins here, by a set-up line or a stated code, though the name of the file's one
    /// station is stated: leave the name out, for the stations have names of their own.
    #[error("a station begins here, and the name of the file's one station is stated")]
    HasSetUp,
    /// A reading before any station begins, and no name is stated: state the station's name, or the
    /// code that begins stations, or mark a copy without the reading.
    #[error("a reading stands before any station begins, and no station's name is stated")]
    NoSetUp,
    /// The target was read in this face of this set before: a repeated pointing, a closing sight,
    /// or another station. Mark a copy without it.
    #[error("the target was read in this face of this set before")]
    ReadTwice,
    /// More than 100 targets, the most that a station may have: a set of more than 200 readings, or
    /// the 101st target of a station's sets.
    #[error("the sets of the station have more than {MOST_TARGETS} targets")]
    TooManyTargets,
    /// The set has no reading of this target in the other face: add it, or mark a copy without the
    /// target in this set; or without this detail point, where it stands among the sets.
    #[error("the target is read in one face of this set alone")]
    FaceMissing,
    /// The set has one target alone: an orientation in both faces, or a closing pair that is no
    /// check of the target with which sets by faces begin. Mark a copy without it.
    #[error("the set has one target alone")]
    OneTarget,
    /// The set is read neither by faces nor by targets, or another way than the station's first.
    #[error("the set is read neither by faces nor by targets, or another way than the first")]
    Order,
    /// The set ends with another target than the station's first: it was broken off, or its last
    /// target is missing.
    #[error("the set ends with another target than the first")]
    EndsElsewhere,
    /// The station has 40 sets, the most that it may have.
    #[error("the station has more than {MOST_SETS} sets")]
    TooManySets,
    /// There is a single set, and before it stand other readings than sights to its targets, all in
    /// face I, or to one of them, or in both faces to each that is sighted: nothing shows where it
    /// begins. Mark a copy without them.
    #[error("a single set stands after readings that are in no set")]
    OneSet,
    /// The first set begins in face II, and readings stand before it. Where they belong to no set,
    /// mark a copy without them. Where the first set begins with them, the sets would be shifted:
    /// mark a copy without the checks after the last set.
    #[error("after other readings the first set begins in face II")]
    FirstFace,
    /// The readings before the first set may belong to the sets, and these be shifted, as a reading
    /// in face II after sets by targets shows too; or the sets can be read in two ways, since those
    /// at the end may be check sights or not. Mark a copy without these readings.
    #[error("the sets may begin or end elsewhere")]
    MayBeShifted,
    /// The station's sets are read by targets, and a target in both faces follows them, as a set
    /// would go on: they may begin with another target.
    #[error("a target in both faces follows sets that are read by targets")]
    PairAfter,
    /// No more than half of the set's targets are targets of the station's first set: the
    /// instrument was set up again. Mark the readings before and after in copies of their own.
    #[error("no more than half of the set's targets are targets of the first set")]
    OtherTargets,
    /// The station reads a target of its own name in face II: so it is where the set-up line of the
    /// next station is lost, whose backsight is this one; or the name of a target stands in a
    /// set-up line. Detail in face I may have such a name.
    #[error("the station reads a target of its own name in face II")]
    SightsItself,
    /// A station of this name had sets or a fault: the point was set up again, or its set-up line
    /// was written again. Mark a copy with another name, or without the second line.
    #[error("a station of this name had sets or a fault before")]
    StationTwice,
    /// 1,000 stations have sets: put this one into another file.
    #[error("{MOST_STATIONS} stations have sets")]
    TooManyStations,
    /// The station's name has more bytes than a line of GSI-8 has room for.
    #[error("the name of the station has no room in a line of this width")]
    NameTooLong,
    /// The file has no line: it is empty, as one that a shell wrote over, or a failed transfer left.
    #[error("the file is empty")]
    Empty,
    /// No station has sets: none is read in face II, but for sights back before detail; or there
    /// are no readings. The number is that of the last block plus 1.
    #[error("no station has sets")]
    NoSets,
    /// A number is stated of a station by its name that isn't there, or has no sets. The number of
    /// the block is that of the last one plus 1.
    #[error("a number is stated of a station that isn't there or has no sets")]
    NoSuchStation,
    /// The station's sets are read by targets, so that nothing shows where they begin: state how
    /// many were read to the end; and of a single set how many targets it has.
    #[error("the sets are read by targets, and their number or that of targets isn't stated")]
    ByTargets,
    /// The station has another number of sets than is stated: one was broken off, which doesn't
    /// count, or read again, which does as long as it isn't left out.
    #[error("the station has another number of sets than is stated")]
    SetCount,
    /// The station's sets have another number of targets than is stated: a target is missing, or
    /// has two names.
    #[error("the sets of the station have another number of targets than is stated")]
    TargetCount,
}

impl MarkKind {
    /// Its name, as the line of a refusal has it.
    pub fn name(self) -> &'static str
        ensures name { result.now ≡ mark_kind_name self }
        ensures short { length result.now ≤ LONGEST_FAULT_NAME }
    {
        match self {
            MarkKind::TwoLines => "TwoLines",
            MarkKind::HasCodes => "HasCodes",
            MarkKind::HasSetUp => "HasSetUp",
            MarkKind::NoSetUp => "NoSetUp",
            MarkKind::ReadTwice => "ReadTwice",
            MarkKind::TooManyTargets => "TooManyTargets",
            MarkKind::FaceMissing => "FaceMissing",
            MarkKind::OneTarget => "OneTarget",
            MarkKind::Order => "Order",
            MarkKind::EndsElsewhere => "EndsElsewhere",
            MarkKind::TooManySets => "TooManySets",
            MarkKind::OneSet => "OneSet",
            MarkKind::FirstFace => "FirstFace",
            MarkKind::MayBeShifted => "MayBeShifted",
            MarkKind::PairAfter => "PairAfter",
            MarkKind::OtherTargets => "OtherTargets",
            MarkKind::SightsItself => "SightsItself",
            MarkKind::StationTwice => "StationTwice",
            MarkKind::TooManyStations => "TooManyStations",
            MarkKind::NameTooLong => "NameTooLong",
            MarkKind::Empty => "Empty",
            MarkKind::NoSets => "NoSets",
            MarkKind::NoSuchStation => "NoSuchStation",
            MarkKind::ByTargets => "ByTargets",
            MarkKind::SetCount => "SetCount",
            MarkKind::TargetCount => "TargetCount",
        }
    }
}

/// Why a field file is not marked: its first fault, or that memory ran out.
#[derive(Clone, Copy, Debug, PartialEq, Eq, Error)]
pub enum MarkFault {
    /// A line of the file is no block, or it can't be read whole.
    #[error("{0}")]
    File(FileFault),
    /// The block of this number, from 1, is a reading that a book refuses in any set.
    #[error("block {0}: {1}")]
    Reading(u32, BookKind),
    /// The block of this number, from 1, keeps the file from being marked.
    #[error("block {0}: {1}")]
    At(u32, MarkKind),
    /// There was no memory: run it again with more.
    #[error("out of memory")]
    Memory,
}

impl MarkFault {
    /// Its name, as the line of a refusal has it.
    pub fn name(self) -> &'static str
        ensures name { result.now ≡ mark_fault_name self }
        ensures short { length result.now ≤ LONGEST_FAULT_NAME }
    {
        match self {
            MarkFault::File(fault) => fault.name(),
            MarkFault::Reading(_, kind) => kind.name(),
            MarkFault::At(_, kind) => kind.name(),
            MarkFault::Memory => "out of memory",
        }
    }
}

impl From<AllocError> for MarkFault {
    ghost from_gives = { λ _ fault. fault ≡ Memory };

    fn from(_: AllocError) -> MarkFault {
        MarkFault::Memory
    }
}

impl From<FileFault> for MarkFault {
    ghost from_gives = { λ fault given. given ≡ File fault };

    fn from(fault: FileFault) -> MarkFault {
        MarkFault::File(fault)
    }
}

impl From<OutOfMemory> for MarkFault {
    ghost from_gives = { λ _ fault. fault ≡ Memory };

    fn from(_: OutOfMemory) -> MarkFault {
        MarkFault::Memory
    }
}
