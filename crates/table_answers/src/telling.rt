//! What a run tells on `err`.
ghost use Rattle.std.specs.Prelude.{◌≡◌, ◌++◌};
ghost use Rattle.byte_ends.specs.Writers.{writer_change};
ghost use Rattle.station_check.specs.RunEndings.{Tells, WritesOrFails, status_of};
ghost use Rattle.table_answers.specs.Telling.{told_text};

use byte_ends::{Failed, Sink};
use station_check::{ACCEPTED, REFUSED};
use station_compare::{Refusal, refusal_text};

/// Writes the note of a table, and then the line of a refusal and its hint, where there is one;
/// answers the exit status. Where `err` fails, the rest is lost and the status stays.
pub fn tell<E: Sink>(printed: Result<(), Refusal>, note: &[u8], err: &mut E) -> u8
    ensures exits { result ≡ status_of printed }
    ensures told { Tells (told_text note.now printed) (writer_change E.Sink err.old err.new) }
{
    match printed {
        Ok(()) => tell_note(note, err),
        Err(refusal) => {
            let _ = write_both(note, refusal_text(&refusal).as_slice(), err);
            REFUSED
        }
    }
}

/// Writes a note, where there is one, and answers the exit status.
fn tell_note<E: Sink>(note: &[u8], err: &mut E) -> u8
    ensures status { result ≡ 0 }
    ensures note { Tells note.now (writer_change E.Sink err.old err.new) }
{
    if !note.is_empty() {
        // Where `err` fails, the note is lost.
        let _ = err.write_all(note);
    }
    ACCEPTED
}

/// Writes two texts, one after the other.
fn write_both<E: Sink>(first: &[u8], second: &[u8], err: &mut E) -> Result<(), Failed>
    ensures { WritesOrFails (first.now ++ second.now) (writer_change E.Sink err.old err.new) }
{
    err.write_all(first)?;
    err.write_all(second)?;
    Ok(())
}
