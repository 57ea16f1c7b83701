//! Codes for what a reader gives.

ghost use Rattle.std.specs.Prelude.{◌≡◌, IfOk};
ghost use Rattle.byte_ends.specs.Source.{reader_change, UntilDropped};
ghost use Rattle.gsi_file.specs.FileAnswers.{file_answers};
ghost use Rattle.set_marks.specs.Markings.{AnswersMark};
ghost use Rattle.job_statements.specs.Numbers.{said_in};
ghost use Rattle.station_mark.specs.Answers.{IsMarkAnswer, marking_in};

use crate::given::{Given, all_given};
use crate::marked_file::MarkedFile;
use byte_ends::Source;
use gsi_file::LONGEST_FILE;
use job_statements::{Beginnings, Stated};
use set_marks::{MarkFault, Refused, mark_file};
use std::alloc::Global;

/// Finds where codes are put into a field file: 10 where a station begins, 20 where a set begins,
/// 30 before the first reading after a set that is in none. `beginnings` is what is stated of how
/// the file's stations begin, `stated` what is stated of their sets: where sets are read by
/// targets, nothing else shows where they begin.
///
/// The file is read whole first, whatever its lines are.
///
/// # Errors
///
/// The first fault of the file's lines, a failed read among them; else the first of a block by
/// itself; or `Memory`. Else each station is judged by itself, and the answer tells of all: the
/// fault is that of the first station that has one, unless these may stay outside, or that none has
/// sets.
pub fn mark_bytes<R: Source>(
    alloc: Global,
    gsi: R,
    beginnings: Beginnings,
    stated: Stated,
) -> Result<MarkedFile, Refused>
    ensures { UntilDropped R.told R.failed R.gave gsi
        (λ gsi. IsMarkAnswer beginnings (said_in stated) gsi result) }
{
    let (answer, _gsi) = mark_source(alloc, gsi, beginnings, stated);
    answer
}

/// Finds where codes are put into a field file, and gives its reader back.
///
/// It answers as [`mark_bytes`], and says of the reader what came of it and how it is left: the
/// answer is that of the very bytes by which its histories have grown.
pub fn mark_source<R: Source>(
    alloc: Global,
    gsi: R,
    beginnings: Beginnings,
    stated: Stated,
) -> (Result<MarkedFile, Refused>, R)
    ensures { IsMarkAnswer beginnings (said_in stated)
        (reader_change R.told R.failed R.gave gsi result.1) result.0 }
{
    let mut reader = gsi;
    match all_given(alloc, &mut reader, LONGEST_FILE) {
        Ok(given) => (mark_given(alloc, given, beginnings, stated), reader),
        Err(_) => (Err(Refused::File(MarkFault::Memory)), reader),
    }
}

/// Marks what a reader gave.
fn mark_given(
    alloc: Global,
    given: Given,
    beginnings: Beginnings,
    stated: Stated,
) -> Result<MarkedFile, Refused>
    ensures answers { AnswersMark beginnings (said_in stated) given.bytes.items
        (file_answers (record { bytes = given.bytes.items; fails = given.fails }))
        (marking_in result) }
    ensures kept { IfOk result (λ file. file.bytes.items ≡ given.bytes.items) }
{
    let marked = mark_file(alloc, &given.bytes, given.fails, beginnings, stated)?;
    Ok(MarkedFile {
        bytes: given.bytes,
        marked,
    })
}
