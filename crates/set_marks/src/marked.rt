//! Where codes are put into a field file.

ghost use Rattle.gsi_file.specs.FileAnswers.{file_answers};
ghost use Rattle.set_marks.specs.Markings.{AnswersMark};
ghost use Rattle.job_statements.specs.Numbers.{said_in};

use crate::mark::Mark;
use crate::placing::placed;
use crate::recognized::Recognized;
use crate::refused::{Refused, refusal};
use crate::walk::readings_of;
use job_statements::{Beginnings, Stated};
use std::alloc::Global;

/// The code lines that are put into a field file, and what is told of its stations. The copy is the
/// file's bytes with these lines before their places: [`marked_copy`](crate::marked_copy) makes it.
#[derive(Drop)]
pub struct Marked {
    /// The code lines, in the order of the file.
    pub marks: Vec<Mark>,
    /// What was recognized of each station, in the order of the file.
    pub stations: Vec<Recognized>,
}

/// Finds where codes are put into a field file: 10 where a station begins, 20 where a set begins,
/// 30 before the first reading after a set that is in none.
///
/// `bytes` are those of the file; where `fails`, a read failed after them. `beginnings` is what is
/// stated of how its stations begin, `stated` what is stated of their sets: where sets are read by
/// targets, nothing else shows where they begin.
///
/// # Errors
///
/// The first fault of the file's lines; else the first of a block by itself; or `Memory`. Else each
/// station is judged by itself, and the answer tells of all: the fault is that of the first station
/// that has one, unless these may stay outside, or that none has sets.
#[tactic(auto, using(crate::proofs::Making::as_answered))]
pub fn mark_file(
    alloc: Global,
    bytes: &[u8],
    fails: bool,
    beginnings: Beginnings,
    stated: Stated,
) -> Result<Marked, Refused>
    ensures { AnswersMark beginnings (said_in stated) bytes.now
        (file_answers (record { bytes = bytes.now; fails = fails })) result }
{
    let walk = readings_of(alloc, bytes, fails, beginnings, stated)?;
    let end = walk.readings.blocks + 1;
    let marking = walk.readings.finish(alloc)?;
    if let Some(flaw) = refusal(&marking.stated, end, &marking.stations) {
        return Err(Refused::Stations(flaw, marking.stations));
    }
    let marks = placed(alloc, bytes, &walk.begins, &marking.marks)?;
    Ok(Marked {
        marks,
        stations: marking.stations,
    })
}
