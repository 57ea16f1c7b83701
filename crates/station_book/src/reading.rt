//! What a block says.

ghost use Rattle.std.specs.Prelude.{◌≡◌, ◌<◌, None, Some, IfOk, IfErr, IfSome, OnOk, ◌≤◌, length};
ghost use Rattle.gsi_word.specs.BlockViews.{block_of};
ghost use Rattle.adjust_kernel.specs.Sheets.{IsSetNumber};
ghost use Rattle.gsi_word.specs.Names.{name_of};
ghost use Rattle.gsi_word.specs.declared.word.TheConstants.{GSI_16};
ghost use Rattle.station_book.specs.Faults.{twice_informed, first_of, station_faults};
ghost use Rattle.station_book.specs.Blocks.{named, number, number_of_name, target};
ghost use Rattle.station_book.specs.Readings.{face_of, read};
ghost use Rattle.station_book.specs.TwoFaces.{AreOnCircle};

use crate::angles::{Angles, Reading};
use crate::bounds::{CIRCLE, HALF_CIRCLE};
use crate::face::Face;
use crate::fault::BookKind;
use adjust_kernel::{LARGEST_SET_NUMBER, Name};
use gsi_word::{
    Block, CODE_INFORMATION, Found, HORIZONTAL_DIRECTION, VERTICAL_ANGLE, Word, decimal_number,
};

/// The name that a word holds.
#[inline(always)]
fn name_in(word: &Word<'_>) -> Name
    ensures { result ≡ name_of word.now.content }
{
    Name::of_end(word.content(), word.zeros())
}

/// The name of the station that a block of code 10 opens.
#[tactic(auto, unfolding(crate::proofs::BlockWords::said))]
pub(crate) fn station_name(block: &Block<'_>) -> Result<Name, BookKind>
    ensures ok { IfOk result (λ name. named (block_of block.now) ≡ Some name) }
    ensures clean { OnOk result (first_of (station_faults (block_of block.now)) ≡ None) }
    ensures fault { IfErr result (λ k. first_of (station_faults (block_of block.now)) ≡ Some k) }
{
    match block.find(CODE_INFORMATION) {
        Found::Twice => Err(BookKind::WordTwice(u32::from(CODE_INFORMATION))),
        Found::Absent => Err(BookKind::StationName),
        Found::One(word) => Ok(name_in(&word)),
    }
}

/// The number that a name writes, 1 to 9999.
fn number_of(name: &[u8]) -> Option<u16>
    requires { length name.now ≤ GSI_16 }
    ensures value { result ≡ number_of_name (Some name.now) }
    ensures valid { IfSome result IsSetNumber }
{
    match decimal_number(name) {
        Some(n) if 1 <= n && n <= LARGEST_SET_NUMBER as u64 => Some(n as u16),
        _ => None,
    }
}

/// The number of the set that a block of code 20 opens, if it says one.
#[tactic(auto, unfolding(crate::proofs::BlockWords::said))]
pub(crate) fn set_number(block: &Block<'_>) -> Result<Option<u16>, BookKind>
    ensures ok { IfOk result (λ n. n ≡ number (block_of block.now)) }
    ensures valid { IfOk result (λ n. IfSome n IsSetNumber) }
    ensures clean { OnOk result (twice_informed (block_of block.now) ≡ None) }
    ensures fault { IfErr result (λ k. twice_informed (block_of block.now) ≡ Some k) }
{
    match block.find(CODE_INFORMATION) {
        Found::Twice => Err(BookKind::WordTwice(u32::from(CODE_INFORMATION))),
        Found::Absent => Ok(None),
        Found::One(word) => Ok(number_of(word.name())),
    }
}

/// The face of a reading with this zenith angle; nothing where it is of neither.
pub(crate) fn face_of(zenith: u32) -> Option<Face>
    ensures { result ≡ face_of zenith }
{
    if 0 < zenith && zenith < HALF_CIRCLE {
        return Some(Face::One);
    }
    if HALF_CIRCLE < zenith && zenith < CIRCLE {
        return Some(Face::Two);
    }
    None
}

/// The target of a reading; of any other block the name in its first word.
#[inline(always)]
#[tactic(auto, unfolding(crate::specs::Blocks::target))]
pub fn target(block: &Block<'_>) -> Name
    ensures { result ≡ target (block_of block.now) }
{
    name_in(&block.first())
}

/// What a measurement block says: nothing where it has no direction.
#[inline(always)]
#[tactic(auto, unfolding(crate::proofs::BlockWords::said))]
pub fn read(block: &Block<'_>) -> Result<Option<Reading>, BookKind>
    ensures value { result ≡ read (block_of block.now) }
    ensures angles { IfOk result (λ o. IfSome o (λ s. AreOnCircle s.angles)) }
{
    let (direction, zenith) = block.find_two(HORIZONTAL_DIRECTION, VERTICAL_ANGLE);
    let direction = match direction {
        Found::Absent => return Ok(None),
        Found::Twice => return Err(BookKind::WordTwice(u32::from(HORIZONTAL_DIRECTION))),
        Found::One(word) => word,
    };
    let zenith = match zenith {
        Found::Absent => return Err(BookKind::NoZenith),
        Found::Twice => return Err(BookKind::WordTwice(u32::from(VERTICAL_ANGLE))),
        Found::One(word) => word,
    };
    let hz = direction.angle().map_err(BookKind::Hz)?;
    let zenith = zenith.angle().map_err(BookKind::Zenith)?;
    let Some(face) = face_of(zenith) else {
        return Err(BookKind::FaceUnclear);
    };
    let target = target(block);
    Ok(Some(Reading {
        target,
        angles: Angles { hz, zenith },
        face,
    }))
}
