//! The copy of what a reader gives.

ghost use Rattle.std.specs.Prelude.{Ok, Err, IfOk, IfErr};
ghost use Rattle.byte_ends.specs.Source.{reader_change};
ghost use Rattle.station_change.specs.Answers.{IsChangeAnswer};

use crate::fault::PrintFault;
use byte_ends::{Source, read_whole};
use changed_lines::{Change, changed_copy};
use gsi_file::LONGEST_FILE;
use std::alloc::Global;

/// The copy with these changes of a field file, which is read whole first, whatever its lines are.
///
/// # Errors
///
/// `Read` or `TooLong` where its bytes aren't had whole; else the first change that can't be made;
/// or that memory ran out.
pub(crate) fn copy_of_source<S: Source>(
    alloc: Global,
    gsi: &mut S,
    changes: &[Change],
) -> Result<Vec<u8>, PrintFault>
    ensures copy { IfOk result (λ copy. IsChangeAnswer changes.now
        (reader_change S.told S.failed S.gave gsi.old gsi.new) (Ok copy.items)) }
    ensures fault { IfErr result (λ fault. IsChangeAnswer changes.now
        (reader_change S.told S.failed S.gave gsi.old gsi.new) (Err fault)) }
{
    let bytes = read_whole(alloc, gsi, LONGEST_FILE)?;
    let copy = changed_copy(alloc, &bytes, changes)?;
    Ok(copy)
}
