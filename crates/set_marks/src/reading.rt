//! How the blocks of a field file are read.

ghost use Rattle.std.specs.Prelude.{◌≡◌, ◌≤◌, ◌+◌, ◌++◌, ◌∷◌, [], All, IfErr, OnOk, None, Some};
ghost use Rattle.std.specs.Prelude.{false, not, nat_lt, ◌&&◌, ◌||◌};
ghost use Rattle.std.specs.Bool.{OnTrue};
ghost use Rattle.station_book.specs.declared.bounds.TheConstants.{CIRCLE, HALF_CIRCLE};
ghost use Rattle.gsi_word.specs.BlockViews.{block_of};
ghost use Rattle.gsi_file.specs.declared.bounds.TheConstants.{LONGEST_FILE};
ghost use Rattle.set_marks.specs.declared.fault.MarkFault.TheVariants.{Memory};
ghost use Rattle.station_book.specs.Blocks.{has_direction, lacks, role_of};
ghost use Rattle.station_book.specs.declared.role.Role.TheVariants.{Measurement, Other};
ghost use Rattle.station_book.specs.Faults.{first_of};
ghost use Rattle.station_book.specs.Readings.{read};
ghost use Rattle.adjust_kernel.specs.Names.{IsName};
ghost use Rattle.gsi_word.specs.Names.{name_of};
ghost use Rattle.set_marks.specs.Marks.{IsRoomy};
ghost use Rattle.job_statements.specs.Numbers.{said_in};
ghost use Rattle.set_marks.specs.Stations.{begins_line, is_two_lines, block_fault, fault_as};
ghost use Rattle.set_marks.specs.Stations.{has_set_up_word, tells_set_up, has_code, information};
ghost use Rattle.set_marks.specs.Stations.{begins_named, is_open_as, set_up_fault};
ghost use Rattle.set_marks.specs.Taking.{IsKnown};
ghost use Rattle.set_marks.specs.Keeping.{Adds, Ends, IsMemoryOr, Keeps, begun_in};

use crate::fault::{MarkFault, MarkKind};
use crate::readings::Readings;
use crate::sight::Sight;
use adjust_kernel::Name;
use gsi_word::{
    Block, CODE_INFORMATION, CODE_NUMBER, Found, GSI_16, HORIZONTAL_DIRECTION, POINT_NUMBER,
    VERTICAL_ANGLE, Word,
};
use job_statements::{Beginnings, Stated, bare_name};
use station_book::{BookKind, CIRCLE, HALF_CIRCLE, Reading, Role, read, role_of, target};
use std::alloc::{AllocError, Global};

/// The index of a slope distance.
const SLOPE_DISTANCE: u8 = 31;

/// What a measurement says: its reading, or its fault, or nothing where it has no direction.
pub(crate) type Said = Result<Option<Reading>, BookKind>;

/// Whether a block has a word of this index.
#[tactic(auto, unfolding(station_book::specs::Blocks::lacks))]
fn has_word(block: &Block<'_>, index: u8) -> bool
    ensures { result ≡ not (lacks index (block_of block.now)) }
{
    !matches!(block.find(index), Found::Absent)
}

/// Whether a block has a word of one of these indices.
#[tactic(auto, unfolding(station_book::specs::Blocks::lacks))]
fn has_either(block: &Block<'_>, one: u8, other: u8) -> bool
    ensures { result ≡ (not (lacks one (block_of block.now))
        || not (lacks other (block_of block.now))) }
{
    !matches!(block.find_two(one, other), (Found::Absent, Found::Absent))
}

/// Whether a block has a word of a set-up line: east, north or height of the station, height of the
/// instrument.
fn has_set_up_word(block: &Block<'_>) -> bool
    ensures { result ≡ has_set_up_word (block_of block.now) }
{
    has_either(block, 84, 85) || has_either(block, 86, 88)
}

/// Whether a block without a direction sets a station up: it has a word of a set-up line, and
/// neither a vertical angle nor a distance, with which a height is measured.
#[tactic(auto, unfolding(crate::specs::Stations::tells_set_up))]
fn tells_set_up(block: &Block<'_>) -> bool
    ensures { result ≡ tells_set_up (block_of block.now) }
{
    has_set_up_word(block) && !has_either(block, VERTICAL_ANGLE, SLOPE_DISTANCE)
}

/// Whether a line begins with such a word: a point number or a code number.
fn begins_line(word: &Word<'_>) -> bool
    ensures { result ≡ begins_line word.now }
{
    let index = word.index();
    index == POINT_NUMBER || index == CODE_NUMBER
}

/// Whether a block is of three words, as most readings are, and neither the second nor the third is
/// one that a line begins with.
#[inline(always)]
#[tactic(auto, unfolding(crate::specs::Stations::is_two_lines))]
fn is_bare_line(block: &Block<'_>) -> bool
    ensures { OnTrue result (is_two_lines (block_of block.now) ≡ false) }
{
    if block.len() != 3 {
        return false;
    }
    match (block.word(1), block.word(2)) {
        (Some(second), Some(third)) => !begins_line(&second) && !begins_line(&third),
        _ => false,
    }
}

/// Whether a word after the first is one that a line begins with.
// Apart from its caller, which needs it for blocks of other than three words alone.
#[inline(never)]
#[tactic(auto, unfolding(crate::specs::Stations::is_two_lines))]
fn has_later_beginning(block: &Block<'_>) -> bool
    ensures { result ≡ is_two_lines (block_of block.now) }
{
    let mut words = block.words();
    words.next();
    for word in words {
        if begins_line(&word) {
            return true;
        }
    }
    false
}

/// Whether a block is two lines in one: a word after the first is one that a line begins with.
fn is_two_lines(block: &Block<'_>) -> bool
    ensures { result ≡ is_two_lines (block_of block.now) }
{
    !is_bare_line(block) && has_later_beginning(block)
}

/// Whether the zenith angle of a reading is of face II.
fn is_second(zenith: u32) -> bool
    ensures { result ≡ (nat_lt HALF_CIRCLE zenith && nat_lt zenith CIRCLE) }
{
    HALF_CIRCLE < zenith && zenith < CIRCLE
}

/// Whether it is stated that the blocks of a code begin stations, and this block, which is no
/// measurement, has the code; zeros before a code do not count.
fn has_code(code: &Option<Name>, block: &Block<'_>) -> bool
    requires { role_of (block_of block.now) ≡ Other }
    ensures { result ≡ has_code code.now (block_of block.now) }
{
    match code {
        Some(code) => target(block).is_same(&bare_name(code)),
        None => false,
    }
}

/// The name that a word holds.
fn name_in(word: &Word<'_>) -> Name
    ensures { result ≡ name_of word.now.content }
{
    Name::of_end(word.content(), word.zeros())
}

/// The name in the first word 42 of a block, if it has one.
fn information(block: &Block<'_>) -> Option<Name>
    ensures { result ≡ information (block_of block.now) }
{
    for word in block.words() {
        if word.index() == CODE_INFORMATION {
            return Some(name_in(&word));
        }
    }
    None
}

/// The name of which a block begins a station, if it does: at a set-up line the name in its first
/// word, at a block of the stated code that in its first word 42.
#[tactic(auto, using(crate::proofs::SetUps::names))]
fn begins_named(beginnings: &Beginnings, block: &Block<'_>) -> Option<Name>
    ensures { result ≡ begins_named beginnings.now (block_of block.now) }
{
    match role_of(block) {
        Role::Measurement => {
            if has_word(block, HORIZONTAL_DIRECTION) || !tells_set_up(block) {
                return None;
            }
            Some(target(block))
        }
        Role::Other => {
            if !has_code(&beginnings.code, block) {
                return None;
            }
            information(block)
        }
        Role::Station | Role::Set | Role::Close => None,
    }
}

/// No readings: of a station, where its name is stated.
#[tactic(auto, using(crate::proofs::EndedStations::none_kept))]
pub(crate) fn no_readings(alloc: Global, beginnings: &Beginnings, stated: Stated) -> Readings
    ensures keeps { Keeps beginnings.now (said_in stated) [] result }
    ensures room { All IsRoomy result.marking.marks.items }
{
    match beginnings.station {
        Some(name) => Readings::new(alloc, Some(bare_name(&name)), stated),
        None => Readings::new(alloc, None, stated),
    }
}

impl Readings {
    /// Takes the block of this number, of which it may be known what it says, unless there is a
    /// fault already, or notes its fault.
    #[inline(always)]
    pub(crate) fn take_unless(
        &mut self,
        alloc: Global,
        fault: &mut Option<MarkFault>,
        number: u32,
        block: &Block<'_>,
        known: Option<Said>,
        beginnings: &Beginnings,
    ) -> Result<(), MarkFault>
        requires bound { number ≤ LONGEST_FILE }
        requires known { IsKnown known (block_of block.now) }
        requires room { All IsRoomy self.old.marking.marks.items }
        ensures room { All IsRoomy self.new.marking.marks.items }
        ensures fault { OnOk result (fault.new ≡ first_of (fault.old
            ∷ block_fault beginnings.now (begun_in self.old.station) number (block_of block.now)
            ∷ [])) }
        ensures adds { OnOk result
            (fault.new ≡ None
            → Adds beginnings.now (block_of block.now) number self.old self.new) }
        ensures memory { IfErr result (λ e. e ≡ Memory) }
    {
        if fault.is_some() {
            return Ok(());
        }
        match self.take(alloc, number, block, known, beginnings) {
            Ok(()) => Ok(()),
            Err(MarkFault::Memory) => Err(MarkFault::Memory),
            Err(first) => {
                *fault = Some(first);
                Ok(())
            }
        }
    }

    /// Takes the block of this number, of which it may be known what it says.
    #[inline(always)]
    #[tactic(auto, unfolding(station_book::specs::Blocks::role_of))]
    fn take(
        &mut self,
        alloc: Global,
        number: u32,
        block: &Block<'_>,
        known: Option<Said>,
        beginnings: &Beginnings,
    ) -> Result<(), MarkFault>
        requires bound { number ≤ LONGEST_FILE }
        requires known { IsKnown known (block_of block.now) }
        requires room { All IsRoomy self.old.marking.marks.items }
        ensures room { All IsRoomy self.new.marking.marks.items }
        ensures clean { OnOk result (block_fault beginnings.now
            (begun_in self.old.station) number (block_of block.now) ≡ None) }
        ensures adds { OnOk result
            (Adds beginnings.now (block_of block.now) number self.old self.new) }
        ensures fault { IfErr result (IsMemoryOr
            (block_fault beginnings.now (begun_in self.old.station) number (block_of block.now))) }
    {
        if let Some(said) = known {
            return self.take_measurement(alloc, number, block, said, beginnings);
        }
        if is_two_lines(block) {
            return Err(MarkFault::At(number, MarkKind::TwoLines));
        }
        match role_of(block) {
            Role::Station | Role::Set | Role::Close => {
                Err(MarkFault::At(number, MarkKind::HasCodes))
            }
            Role::Measurement => {
                self.take_measurement(alloc, number, block, read(block), beginnings)
            }
            Role::Other => {
                if !has_code(&beginnings.code, block) {
                    self.blocks = number;
                    return Ok(());
                }
                if !has_word(block, CODE_INFORMATION) {
                    return Err(MarkFault::Reading(number, BookKind::StationName));
                }
                self.take_beginning(alloc, number, block, beginnings)
            }
        }
    }

    /// Takes a measurement that says this.
    #[inline(always)]
    fn take_measurement(
        &mut self,
        alloc: Global,
        number: u32,
        block: &Block<'_>,
        said: Said,
        beginnings: &Beginnings,
    ) -> Result<(), MarkFault>
        requires bound { number ≤ LONGEST_FILE }
        requires measurement { role_of (block_of block.now) ≡ Measurement }
        requires said { said ≡ read (block_of block.now) }
        requires room { All IsRoomy self.old.marking.marks.items }
        ensures room { All IsRoomy self.new.marking.marks.items }
        ensures clean { OnOk result (fault_as Measurement beginnings.now
            (begun_in self.old.station) number (block_of block.now) ≡ None) }
        ensures adds { OnOk result
            (Adds beginnings.now (block_of block.now) number self.old self.new) }
        ensures fault { IfErr result (IsMemoryOr (fault_as Measurement beginnings.now
            (begun_in self.old.station) number (block_of block.now))) }
    {
        match said {
            Ok(None) => self.take_beginning(alloc, number, block, beginnings),
            Ok(Some(reading)) => {
                if self.station.is_none() {
                    return Err(MarkFault::At(number, MarkKind::NoSetUp));
                }
                self.add_sight(number, usize::from(block.width()) == GSI_16, &reading)?;
                Ok(())
            }
            Err(kind) => {
                if self.station.is_none() {
                    return Err(MarkFault::At(number, MarkKind::NoSetUp));
                }
                Err(MarkFault::Reading(number, kind))
            }
        }
    }

    /// Takes a block that is no reading: it begins a station, or nothing.
    // Apart from its callers, which need it for few blocks.
    #[inline(never)]
    fn take_beginning(
        &mut self,
        alloc: Global,
        number: u32,
        block: &Block<'_>,
        beginnings: &Beginnings,
    ) -> Result<(), MarkFault>
        requires bound { number ≤ LONGEST_FILE }
        requires no_reading { has_direction (block_of block.now) ≡ false }
        requires room { All IsRoomy self.old.marking.marks.items }
        ensures room { All IsRoomy self.new.marking.marks.items }
        ensures clean { OnOk result
            (set_up_fault beginnings.now number (block_of block.now) ≡ None) }
        ensures adds { OnOk result
            (Adds beginnings.now (block_of block.now) number self.old self.new) }
        ensures fault { IfErr result (IsMemoryOr
            (set_up_fault beginnings.now number (block_of block.now))) }
    {
        let Some(name) = begins_named(beginnings, block) else {
            self.blocks = number;
            return Ok(());
        };
        if beginnings.station.is_some() {
            return Err(MarkFault::At(number, MarkKind::HasSetUp));
        }
        if beginnings.same_set_up && self.is_open_as(&name) {
            self.count_again(number)?;
            return Ok(());
        }
        self.begin_station(alloc, number, name)?;
        Ok(())
    }

    /// Whether a station is open, and has this name.
    fn is_open_as(&self, name: &Name) -> bool
        ensures { result ≡ is_open_as name.now self.now.station }
    {
        match &self.station {
            Some(current) => current.is_same(name),
            None => false,
        }
    }

    /// Counts that the set-up line of the station that is open was written again. What no count can
    /// hold is no memory.
    fn count_again(&mut self, number: u32) -> Result<(), AllocError>
        requires { number ≤ LONGEST_FILE }
        ensures station { OnOk result (self.new.station ≡ self.old.station) }
        ensures sights { OnOk result (self.new.sights.items ≡ self.old.sights.items) }
        ensures count { OnOk result (self.new.written_again ≡ self.old.written_again + 1) }
        ensures marking { self.new.marking ≡ self.old.marking }
        ensures blocks { OnOk result (self.new.blocks ≡ number) }
    {
        let Some(count) = self.written_again.checked_add(1) else {
            return Err(AllocError);
        };
        self.written_again = count;
        self.blocks = number;
        Ok(())
    }

    /// Begins a station, and ends the one that was open.
    fn begin_station(&mut self, alloc: Global, number: u32, name: Name) -> Result<(), AllocError>
        requires bound { number ≤ LONGEST_FILE }
        requires room { All IsRoomy self.old.marking.marks.items }
        ensures room { All IsRoomy self.new.marking.marks.items }
        ensures station { OnOk result (self.new.station ≡ Some name) }
        ensures sights { OnOk result (self.new.sights.items ≡ []) }
        ensures count { OnOk result (self.new.written_again ≡ 0) }
        ensures ends { OnOk result (Ends self.old self.new) }
        ensures blocks { OnOk result (self.new.blocks ≡ number) }
    {
        self.end_station(alloc)?;
        self.station = Some(name);
        self.written_again = 0;
        self.blocks = number;
        Ok(())
    }

    /// Adds a reading.
    #[inline(always)]
    fn add_sight(&mut self, number: u32, wide: bool, reading: &Reading) -> Result<(), AllocError>
        requires { number ≤ LONGEST_FILE }
        ensures station { OnOk result (self.new.station ≡ self.old.station) }
        ensures count { OnOk result (self.new.written_again ≡ self.old.written_again) }
        ensures marking { self.new.marking ≡ self.old.marking }
        ensures sights { OnOk result (self.new.sights.items ≡ self.old.sights.items ++ record {
          block = number;
          wide = wide;
          target = reading.now.target;
          second = nat_lt HALF_CIRCLE reading.now.angles.zenith
              && nat_lt reading.now.angles.zenith CIRCLE;
          angles = reading.now.angles;
        } ∷ []) }
        ensures blocks { OnOk result (self.new.blocks ≡ number) }
    {
        self.blocks = number;
        self.sights.push(Sight {
            block: number,
            wide,
            target: reading.target,
            second: is_second(reading.angles.zenith),
            angles: reading.angles,
        })?;
        Ok(())
    }
}
