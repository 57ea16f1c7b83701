//! What a line says that is a reading as most are written.

ghost use Rattle.std.specs.Prelude.{◌≡◌, true};
ghost use Rattle.gsi_word.specs.Blocks.{GsiBlock, IsBlock};
ghost use Rattle.gsi_word.specs.PlainLines.{is_plain_reading};
ghost use Rattle.station_book.specs.Readings.{read};

use crate::angles::{Angles, Reading};
use crate::fault::BookKind;
use crate::reading::{face_of, target};
use gsi_word::steps::{reading_angles, reading_block};

/// What [`read`](crate::read) answers of the block that a line is, where the line is a reading as
/// most are written: no word is looked for in it, and no byte tested again.
#[inline(always)]
pub fn read_plain(line: &[u8]) -> Result<Option<Reading>, BookKind>
    requires { is_plain_reading line.now ≡ true }
    ensures { (b : GsiBlock) → IsBlock line.now b → result ≡ read b }
{
    let (hz, zenith) = reading_angles(line);
    let Some(face) = face_of(zenith) else {
        return Err(BookKind::FaceUnclear);
    };
    let target = target(&reading_block(line));
    Ok(Some(Reading {
        target,
        angles: Angles { hz, zenith },
        face,
    }))
}
