//! A copy of a file with code lines put in.

ghost use Rattle.std.specs.Prelude.{◌≡◌, All, IfOk, length};
ghost use Rattle.set_marks.specs.Copies.{woven, AreOrdered, BeginsLine, IsMarkedCopy};

use crate::mark::{Mark, code_line};
use std::alloc::{AllocError, Global};

/// The bytes with the code lines put in before their places: the file, with whole code lines put in
/// where lines begin, and with nothing else changed.
pub fn marked_copy(alloc: Global, bytes: &[u8], marks: &[Mark]) -> Result<Vec<u8>, AllocError>
    requires ordered { AreOrdered 0 (length bytes.now) marks.now }
    requires begin { All (BeginsLine bytes.now) marks.now }
    ensures woven { IfOk result (λ copy. copy.items ≡ woven 0 bytes.now marks.now) }
    ensures identity { IfOk result (λ copy. IsMarkedCopy bytes.now copy.items) }
{
    weave(alloc, bytes, marks)
}

/// The bytes up to each place, and its code line; and the rest.
fn weave(alloc: Global, bytes: &[u8], marks: &[Mark]) -> Result<Vec<u8>, AllocError>
    requires { AreOrdered 0 (length bytes.now) marks.now }
    ensures { IfOk result (λ copy. copy.items ≡ woven 0 bytes.now marks.now) }
{
    let mut copy = Vec::with_capacity(alloc, bytes.len())?;
    let mut from = 0;
    let mut left = marks;
    'marks: while let Some((mark, rest)) = left.split_first() {
        copy.extend_from_slice(&bytes[from..mark.at])?;
        copy.extend_from_slice(code_line(mark).as_slice())?;
        from = mark.at;
        left = rest;
    }
    copy.extend_from_slice(&bytes[from..])?;
    Ok(copy)
}
