//! What the rows of a list share: a name stands in many of them.
//!
//! So each name's cell is made once, by `csv` where the name calls for quotes, and copied into the
//! rows: all bytes that a cell has room for, since a copy of a constant length is a few loads and
//! stores.
ghost use Rattle.std.specs.Prelude.{◌≡◌, ◌≤◌, ◌<◌, ◌+◌, ◌++◌, ◌∷◌, [], length, map, IfOk};
ghost use Rattle.std.specs.Prelude.{decimal};
ghost use Rattle.adjust_kernel.specs.Names.{IsName};
ghost use Rattle.csv.specs.Writing.{needs_quotes};
ghost use Rattle.list_rows.specs.RowPieces as spec;
ghost use Rattle.row_forms.specs.Forms.{separator, writer_of};

use crate::put::{put, put_bytes};
use adjust_kernel::{LONGEST_NAME, Name, Station};
use itoa::Buffer;
use row_forms::{RowForm, text_of_row};
use station_check::LONGEST_U32;
use std::alloc::{AllocError, Global};
use std::marker::Model;

/// Bytes that no name passes as `csv` writes it: each of them a quote, which is written twice, and
/// the two quotes around it.
const LONGEST_FIELD: usize = 2 * LONGEST_NAME + 2;

/// Bytes that a cell has room for: a name and a number, each with its separator.
pub(crate) const LONGEST_CELL: usize = LONGEST_FIELD + 1 + LONGEST_U32 + 1;

/// A piece that rows share, with a separator at its end.
#[derive(Drop)]
pub(crate) struct Cell {
    bytes: [u8; LONGEST_CELL],
    len: usize,
}

impl Model for Cell {
    ghost use Rattle.std.specs.Prelude.{◌≡◌, ◌≤◌, ℕ, List, length, take};
    ghost use Rattle.list_rows.specs.declared.cell.TheConstants.{LONGEST_CELL};

    ghost Value = { List ℕ };

    ghost view = { λ c. take c.len c.bytes };

    ghost invariant = { λ c. (c.len ≤ LONGEST_CELL) × (length c.bytes ≡ LONGEST_CELL) };
}

impl Cell {
    ghost use Rattle.std.specs.Prelude.{◌≡◌, ◌≤◌, ◌<◌, ◌+◌, ◌++◌, ◌∷◌, [], length, take};

    /// A cell of two pieces of text, and what separates it from the next.
    fn new(first: &[u8], second: &[u8], separator: u8) -> Cell
        requires { length first.now + length second.now < LONGEST_CELL }
        ensures { result ≡ first.now ++ (second.now ++ (separator ∷ [])) }
    {
        let mut bytes = [0; LONGEST_CELL];
        let middle = put_bytes(&mut bytes, 0, first);
        let end = put_bytes(&mut bytes, middle, second);
        let len = put(&mut bytes, end, &[separator]);
        Cell { bytes, len }
    }

    /// Its bytes.
    fn bytes(&self) -> &[u8]
        ensures { result.now ≡ self.now }
    {
        &self.bytes[..self.len]
    }

    /// Its bytes, with others after them, as many as a cell has room for; and how many are its own.
    #[inline(always)]
    pub(crate) fn padded(&self) -> (&[u8; LONGEST_CELL], usize)
        ensures own { take result.1 result.0.now ≡ self.now }
        ensures short { result.1 ≤ LONGEST_CELL }
    {
        (&self.bytes, self.len)
    }
}

/// Whether `csv` puts quotes around a name.
fn calls_for_quotes(name: &[u8], form: RowForm) -> bool
    ensures { result ≡ needs_quotes (writer_of form) name.now }
{
    let separator = form.separator();
    name.iter().any(|&byte| byte == separator || byte == b'"' || byte == b'\r' || byte == b'\n')
}

/// The cell of a name.
fn cell_of(alloc: Global, name: &Name, form: RowForm) -> Result<Cell, AllocError>
    ensures cell { IfOk result (λ cell. cell ≡ spec.cell_text form name.now) }
    ensures short { length (spec.cell_text form name.now) ≤ LONGEST_FIELD + 1 }
{
    let bytes = name.bytes();
    if calls_for_quotes(bytes, form) {
        // After the name there is a separator, an empty field and the end of the line.
        let row = text_of_row(alloc, &[bytes, b"".as_slice()], form)?;
        return Ok(Cell::new(&row[..row.len() - 2], b"", form.separator()));
    }
    Ok(Cell::new(bytes, b"", form.separator()))
}

/// The cells of names, in their order.
pub(crate) fn cells_of(
    alloc: Global,
    names: &[Name],
    form: RowForm,
) -> Result<Vec<Cell>, AllocError>
    ensures { IfOk result (λ cells. cells.items ≡ map (spec.cell_text form) names.now) }
{
    let mut cells = Vec::with_capacity(alloc, names.len())?;
    for name in names {
        cells.push(cell_of(alloc, name, form)?)?;
    }
    Ok(cells)
}

/// What the rows of a set begin with, by the cell of the station's name.
fn start_of(station: &Cell, set: u16, form: RowForm) -> Cell
    requires { length station.now ≤ LONGEST_FIELD + 1 }
    ensures { result ≡ station.now ++ (decimal set ++ (separator form ∷ [])) }
{
    let mut digits = Buffer::new();
    Cell::new(
        station.bytes(),
        digits.format(set).as_bytes(),
        form.separator(),
    )
}

/// What the rows of each set of a station begin with.
pub(crate) fn starts_of(
    alloc: Global,
    station: &Station,
    form: RowForm,
) -> Result<Vec<Cell>, AllocError>
    ensures { IfOk result (λ starts. starts.items
        ≡ map (spec.start_text form station.now.name) station.now.sets) }
{
    let name = cell_of(alloc, &station.name(), form)?;
    let mut starts = Vec::with_capacity(alloc, station.sets().len())?;
    for set in station.sets() {
        starts.push(start_of(&name, *set, form))?;
    }
    Ok(starts)
}
