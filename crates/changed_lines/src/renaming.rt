//! A line whose point has another name.

ghost use Rattle.std.specs.Prelude.{◌≡◌, ◌≤◌, ◌+◌, ◌++◌, IfOk, IfErr, length};
ghost use Rattle.std.specs.Bool.{OnTrue, OnFalse};
ghost use Rattle.gsi_word.specs.Blocks.{is_starred, width_of};
ghost use Rattle.changed_lines.specs.Renaming.{content_at, renamed, IsMeasurement, IsBare};
ghost use Rattle.changed_lines.specs.Answers.{MayBe};
ghost use Rattle.changed_lines.specs.Steps.{RefusesLine};
ghost use Rattle.changed_lines.specs.declared.change.Edit.TheVariants.{Rename};

use crate::fault::ChangeFault;
use adjust_kernel::Name;
use gsi_word::{GSI_8, GSI_16, read_block};
use station_book::{Role, role_of};
use std::alloc::AllocError;

/// Where the content of the first word begins in a line of GSI-8.
const CONTENT: usize = 7;

/// The zero, which fills a content from the left.
const ZERO: u8 = b'0';

/// Whether the line is GSI-16.
fn is_starred(line: &[u8]) -> bool
    ensures { result ≡ is_starred line.now }
{
    line.starts_with(b"*")
}

/// How many bytes the content of each word of the line has.
fn width_of(line: &[u8]) -> usize
    ensures value { result ≡ width_of line.now }
    ensures short { result ≤ 16 }
{
    if is_starred(line) { GSI_16 } else { GSI_8 }
}

/// Where the content of the first word begins in the line.
fn content_at(line: &[u8]) -> usize
    ensures value { result ≡ content_at line.now }
    ensures short { result ≤ 8 }
{
    CONTENT + usize::from(is_starred(line))
}

/// Whether no zero stands before the name.
fn is_bare(name: &[u8]) -> bool
    ensures bare { OnTrue result (IsBare name.now) }
    ensures zero { OnFalse result (¬ IsBare name.now) }
{
    name.len() < 2 || name[0] != ZERO
}

/// Whether the line is a measurement.
fn is_measurement(line: &[u8]) -> bool
    ensures measures { OnTrue result (IsMeasurement line.now) }
    ensures other { OnFalse result (¬ IsMeasurement line.now) }
{
    match read_block(line) {
        Ok(block) => match role_of(&block) {
            Role::Measurement => true,
            _ => false,
        },
        Err(_) => false,
    }
}

/// Adds the line with this name to a copy.
fn add_renamed(copy: &mut Vec<u8>, line: &[u8], name: &[u8]) -> Result<(), AllocError>
    requires room { length name.now ≤ width_of line.now }
    requires whole { content_at line.now + width_of line.now ≤ length line.now }
    ensures { IfOk result (λ _. copy.new.items ≡ copy.old.items ++ renamed name.now line.now) }
{
    let at = content_at(line);
    let width = width_of(line);
    copy.extend_from_slice(&line[..at])?;
    copy.resize(copy.len() + (width - name.len()), ZERO)?;
    copy.extend_from_slice(name)?;
    copy.extend_from_slice(&line[at + width..])
}

/// Adds the line of this number, with this name, to a copy.
///
/// # Errors
///
/// `NameTooLong`, `ZeroBefore` or `NoPoint`, the first that is so; or `Memory`.
pub(crate) fn rename(
    copy: &mut Vec<u8>,
    number: u32,
    line: &[u8],
    name: &Name,
) -> Result<(), ChangeFault>
    ensures made { IfOk result (λ _. MayBe (Rename name.now) line.now) }
    ensures copy { IfOk result
        (λ _. copy.new.items ≡ copy.old.items ++ renamed name.now line.now) }
    ensures fault { IfErr result (RefusesLine number (Rename name.now) line.now) }
{
    let name = name.bytes();
    if name.len() > width_of(line) {
        return Err(ChangeFault::NameTooLong(number));
    }
    if !is_bare(name) {
        return Err(ChangeFault::ZeroBefore(number));
    }
    if line.len() < content_at(line) + width_of(line) {
        return Err(ChangeFault::NoPoint(number));
    }
    let from = copy.len();
    add_renamed(copy, line, name)?;
    if is_measurement(&copy[from..]) {
        Ok(())
    } else {
        Err(ChangeFault::NoPoint(number))
    }
}
