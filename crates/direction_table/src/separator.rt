//! By what the fields of a row are separated, as the first row tells.

ghost use Rattle.std.specs.Prelude.{◌≡◌, [], filter, IfOk, OnOk};
ghost use Rattle.csv.specs.Records.{fields_of, partial_of};
ghost use Rattle.direction_table.specs.Separators as spec;

use crate::columns::COLUMNS;
use crate::field::{field, has_target, named};
use crate::records::Records;
use adjust_kernel::Name;
use csv::ByteRecord;
use std::alloc::{AllocError, Global};

/// By what the fields of a row are separated.
#[derive(Clone, Copy, Drop)]
pub(crate) enum Separator {
    /// A comma.
    Comma,
    /// A semicolon.
    Semicolon,
    /// A tab.
    Tab,
    /// One blank or more.
    Blanks,
}

impl Separator {
    /// Its byte.
    pub(crate) fn byte(self) -> u8
        ensures { result ≡ spec.byte_of self }
    {
        match self {
            Separator::Comma => b',',
            Separator::Semicolon => b';',
            Separator::Tab => b'\t',
            Separator::Blanks => b' ',
        }
    }
}

/// Puts the fields of a record that have a byte into another record, which has none.
#[tactic(auto, using(crate::proofs::FieldsAt::kept_more))]
fn keep_fields(kept: &mut ByteRecord, raw: &ByteRecord) -> Result<(), AllocError>
    requires fields { fields_of kept.old ≡ [] }
    requires partial { partial_of kept.old ≡ [] }
    ensures { OnOk result (fields_of kept.new ≡ filter spec.has_byte (fields_of raw.now)) }
{
    for at in 0..raw.len() {
        let field = field(raw, at);
        if field.is_empty() {
            continue;
        }
        kept.push_field(field)?;
    }
    Ok(())
}

/// The fields of a record that count, in the record itself or in another one, whose own fields are
/// dropped.
pub(crate) fn kept_row<'a>(
    separator: Separator,
    raw: &'a ByteRecord,
    kept: &'a mut ByteRecord,
) -> Result<&'a ByteRecord, AllocError>
    ensures { IfOk result (λ row. fields_of row.now ≡ spec.kept separator (fields_of raw.now)) }
{
    match separator {
        Separator::Comma | Separator::Semicolon | Separator::Tab => Ok(raw),
        Separator::Blanks => {
            kept.clear();
            keep_fields(kept, raw)?;
            Ok(kept)
        }
    }
}

/// The fields of a record that count, as a record of its own.
pub(crate) fn kept_record(
    alloc: Global,
    separator: Separator,
    raw: ByteRecord,
) -> Result<ByteRecord, AllocError>
    ensures { IfOk result (λ row. fields_of row ≡ spec.kept separator (fields_of raw)) }
{
    match separator {
        Separator::Comma | Separator::Semicolon | Separator::Tab => Ok(raw),
        Separator::Blanks => {
            let mut kept = ByteRecord::new(alloc);
            keep_fields(&mut kept, &raw)?;
            Ok(kept)
        }
    }
}

/// What the first row of a text is by a separator.
#[derive(Clone, Copy)]
struct FirstRow {
    begins_with_target: bool,
    is_wide: bool,
}

/// The first row of a text by a separator.
fn first_row(
    alloc: Global,
    targets: &[Name],
    bytes: &[u8],
    separator: Separator,
) -> Result<FirstRow, AllocError>
    ensures target { IfOk result (λ first. first.begins_with_target
        ≡ spec.begins_with_target targets.now (spec.first_of (spec.rows_by separator bytes.now))) }
    ensures wide { IfOk result (λ first. first.is_wide
        ≡ spec.is_wide (spec.first_of (spec.rows_by separator bytes.now))) }
{
    let mut records = Records::of(alloc, separator, bytes);
    let mut raw = ByteRecord::new(alloc);
    let found = records.next(&mut raw)?;
    if !found {
        return Ok(FirstRow {
            begins_with_target: false,
            is_wide: false,
        });
    }
    let mut kept = ByteRecord::new(alloc);
    let row = kept_row(separator, &raw, &mut kept)?;
    Ok(FirstRow {
        begins_with_target: begins_with_target(targets, row),
        is_wide: row.len() >= COLUMNS,
    })
}

/// Whether a row begins with a target's name.
#[tactic(auto, using(crate::proofs::TwoColumns::begins_at))]
fn begins_with_target(targets: &[Name], row: &ByteRecord) -> bool
    ensures { result ≡ spec.begins_with_target targets.now (fields_of row.now) }
{
    if row.is_empty() {
        return false;
    }
    has_target(targets, named(targets, field(row, 0)))
}

/// The separator of a table of these targets: the first of comma, semicolon, tab and blanks by
/// which its first row begins with a target's name; else the first of semicolon, tab and comma that
/// separates the first row, or blanks.
#[tactic(auto, unfolding(crate::specs::Separators::separator_of))]
pub(crate) fn separator_of(
    alloc: Global,
    targets: &[Name],
    bytes: &[u8],
) -> Result<Separator, AllocError>
    ensures { IfOk result (λ separator. separator ≡ spec.separator_of targets.now bytes.now) }
{
    let comma = first_row(alloc, targets, bytes, Separator::Comma)?;
    if comma.begins_with_target {
        return Ok(Separator::Comma);
    }
    let semicolon = first_row(alloc, targets, bytes, Separator::Semicolon)?;
    if semicolon.begins_with_target {
        return Ok(Separator::Semicolon);
    }
    let tab = first_row(alloc, targets, bytes, Separator::Tab)?;
    if tab.begins_with_target {
        return Ok(Separator::Tab);
    }
    let blanks = first_row(alloc, targets, bytes, Separator::Blanks)?;
    if blanks.begins_with_target {
        return Ok(Separator::Blanks);
    }
    Ok(if semicolon.is_wide {
        Separator::Semicolon
    } else if tab.is_wide {
        Separator::Tab
    } else if comma.is_wide {
        Separator::Comma
    } else {
        Separator::Blanks
    })
}
