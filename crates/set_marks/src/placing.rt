//! Where code lines are put in: at the places where the lines of their blocks begin.

ghost use Rattle.std.specs.Prelude.{◌≡◌, ◌≤◌, ◌++◌, All, IfOk, drop, length, map};
ghost use Rattle.gsi_file.specs.LinePlaces.{line_places};
ghost use Rattle.set_marks.specs.Marks.{IsRoomy};
ghost use Rattle.set_marks.specs.Placing.{placed, placed_at, marks_of_block, marks_after};
ghost use Rattle.set_marks.specs.Copies.{AreOrdered, BeginsLine};

use crate::mark::{BlockMark, Mark};
use gsi_file::end_beside;
use std::alloc::{AllocError, Global};

/// Places the code lines of the block of this number, which come first of these, where its line
/// begins, and answers those after them.
#[tactic(auto, using(crate::proofs::Joins::other_mark))]
fn place_block<'a>(
    placed: &mut Vec<Mark>,
    bytes: &[u8],
    at: usize,
    block: usize,
    marks: &'a [BlockMark],
) -> Result<&'a [BlockMark], AllocError>
    ensures value { IfOk result (λ rest. placed.new.items ≡ placed.old.items
        ++ map (placed_at bytes.now at) (marks_of_block block marks.now)) }
    ensures rest { IfOk result (λ rest. rest.now ≡ marks_after block marks.now) }
{
    let mut left = marks;
    'marks: while let Some((mark, rest)) = left.split_first() {
        if mark.block as usize != block {
            return Ok(left);
        }
        placed.push(Mark {
            at,
            wide: mark.wide,
            line_end: end_beside(bytes, at),
            code: mark.code,
        })?;
        left = rest;
    }
    Ok(left)
}

/// The places after the first so many.
fn later(count: usize, begins: &[u32]) -> &[u32]
    requires { count ≤ length begins.now }
    ensures { result.now ≡ drop count begins.now }
{
    &begins[count..]
}

/// The code lines at the places in a file's bytes where the lines of their blocks begin, with the
/// ends of the lines beside them. `begins` are the places where the file's lines begin.
pub(crate) fn placed(
    alloc: Global,
    bytes: &[u8],
    begins: &[u32],
    marks: &[BlockMark],
) -> Result<Vec<Mark>, AllocError>
    requires begins { begins.now ≡ line_places bytes.now }
    requires room { All IsRoomy marks.now }
    ensures value { IfOk result (λ found. found.items ≡ placed bytes.now marks.now) }
    ensures ordered { IfOk result (λ found. AreOrdered 0 (length bytes.now) found.items) }
    ensures begin { IfOk result (λ found. All (BeginsLine bytes.now) found.items) }
{
    let mut found = Vec::with_capacity(alloc, marks.len())?;
    let mut number = 0;
    let mut rest = begins;
    let mut left = marks;
    'marks: while let Some(mark) = left.first() {
        let block = mark.block as usize;
        // Only a file's own code lines, in its order, get places.
        if block <= number || block - number > rest.len() {
            return Ok(found);
        }
        let at = rest[block - number - 1] as usize;
        left = place_block(&mut found, bytes, at, block, left)?;
        rest = later(block - number, rest);
        number = block;
    }
    Ok(found)
}
