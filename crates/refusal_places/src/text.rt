//! A place as a row of text.

ghost use Rattle.std.specs.Prelude.{◌≡◌, ◌++◌, IfOk, OnOk};
ghost use Rattle.refusal_places.specs.PlaceTexts as spec;

use crate::named::Named;
use crate::place::{Found, Place};
use crate::span::Span;
use itoa::Buffer;
use std::alloc::{AllocError, Global};

/// The name of what a refusal names.
fn name_of(named: Named) -> &'static [u8]
    ensures { result.now ≡ spec.name_of named }
{
    match named {
        Named::Block(_) => b"block",
        Named::SheetRow(_) => b"sheet row",
        Named::TableRow(_) => b"table row",
        Named::Target(_) => b"target",
        Named::Set(_) => b"set",
        Named::Observation(_) => b"observation",
        Named::StationTarget(_) => b"station target",
        Named::StationObservation(_) => b"station observation",
    }
}

/// The number of what a refusal names.
fn number_in(named: Named) -> u64
    ensures { result ≡ spec.number_in named }
{
    match named {
        Named::Block(number)
        | Named::SheetRow(number)
        | Named::TableRow(number)
        | Named::Target(number)
        | Named::Set(number)
        | Named::Observation(number)
        | Named::StationTarget(number)
        | Named::StationObservation(number) => number,
    }
}

/// Adds a comma, and a number where there is one.
fn push_cell(text: &mut Vec<u8>, number: Option<u64>) -> Result<(), AllocError>
    ensures { OnOk result (text.new.items ≡ text.old.items ++ spec.cell number) }
{
    text.push(b',')?;
    if let Some(number) = number {
        let mut digits = Buffer::new();
        text.extend_from_slice(digits.format(number).as_bytes())?;
    }
    Ok(())
}

/// Adds the place of the first byte of a part of a file, and what comes after its last.
fn push_span(text: &mut Vec<u8>, span: Option<Span>) -> Result<(), AllocError>
    ensures { OnOk result (text.new.items ≡ text.old.items ++ spec.span_cells span) }
{
    match span {
        Some(span) => {
            push_cell(text, Some(span.first as u64))?;
            push_cell(text, Some(span.end as u64))
        }
        None => {
            push_cell(text, None)?;
            push_cell(text, None)
        }
    }
}

/// Adds where something is found: its row, and its bytes.
fn push_found(text: &mut Vec<u8>, found: Found) -> Result<(), AllocError>
    ensures { OnOk result (text.new.items ≡ text.old.items ++ spec.found_cells found) }
{
    push_cell(text, found.row)?;
    push_span(text, found.span)
}

/// A place as a row below titles; below them none where there is none.
///
/// The only error is that memory was refused.
pub fn place_text(alloc: Global, place: Option<Place>) -> Result<Vec<u8>, AllocError>
    ensures { IfOk result (λ text. text.items ≡ spec.place_text place) }
{
    let mut text = Vec::new(alloc);
    text.extend_from_slice(b"what,number,row,first,end,meant_first,meant_end\n")?;
    if let Some(place) = place {
        text.extend_from_slice(name_of(place.named))?;
        push_cell(&mut text, Some(number_in(place.named)))?;
        push_found(&mut text, place.found)?;
        push_span(&mut text, place.meant)?;
        text.push(b'\n')?;
    }
    Ok(text)
}
