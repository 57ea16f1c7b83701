//! How the texts of stations make one.

ghost use Rattle.std.specs.Prelude.{◌≡◌, ◌∷◌, ◌++◌, [], IfOk, OnOk, true};
ghost use Rattle.book_answers.specs.Together as spec;
ghost use Rattle.csv.specs.Writing.{row_text};
ghost use Rattle.list_rows.specs.RowPieces.{cell_text};
ghost use Rattle.row_forms.specs.Forms.{writer_of};

use adjust_kernel::Name;
use row_forms::{RowForm, rows_in, write_row};
use std::alloc::{AllocError, Global};

/// The byte that begins a page, a form feed.
const FORM_FEED: u8 = 12;

/// How the texts of stations make one, in their order.
#[derive(Clone, Copy, Debug, PartialEq, Eq, Drop)]
pub enum Arrangement {
    /// Each is a page: each but the first begins with a form feed.
    Pages,

    /// Each is rows with a line of titles, which stands once.
    Rows,

    /// Each is a line.
    Lines,

    /// Each is rows of differences with a line of titles: titles, and each other row behind its
    /// station's name, all in a form.
    NamedDifferences(RowForm),

    /// Each is a table of directions without titles: titles, and each row behind its station's
    /// name, all in a form.
    NamedDirections(RowForm),
}

impl Arrangement {
    /// Adds what stands before the texts.
    ///
    /// The only error is that memory was refused.
    pub(crate) fn push_head(self, text: &mut Vec<u8>) -> Result<(), AllocError>
        ensures { OnOk result (text.new.items ≡ text.old.items ++ spec.head self) }
    {
        match self {
            Arrangement::Pages | Arrangement::Rows | Arrangement::Lines => Ok(()),
            Arrangement::NamedDifferences(RowForm::Commas) => {
                text.extend_from_slice(
                    b"station,target,stated,least squares,difference,from the median\n",
                )?;
                Ok(())
            }
            Arrangement::NamedDifferences(RowForm::Semicolons) => {
                text.extend_from_slice(
                    b"station;target;stated;least squares;difference;from the median\n",
                )?;
                Ok(())
            }
            Arrangement::NamedDirections(RowForm::Commas) => {
                text.extend_from_slice(b"station,target,direction\n")?;
                Ok(())
            }
            Arrangement::NamedDirections(RowForm::Semicolons) => {
                text.extend_from_slice(b"station;target;direction\n")?;
                Ok(())
            }
        }
    }

    /// Adds what the station of this name adds by its own text: the first station, or one after it.
    ///
    /// The only error is that memory was refused; then some of it may have been added.
    pub(crate) fn push_piece(
        self,
        alloc: Global,
        text: &mut Vec<u8>,
        first: bool,
        name: Name,
        own: &[u8],
    ) -> Result<(), AllocError>
        ensures { OnOk result
            (text.new.items ≡ text.old.items ++ spec.piece self first (name, own.now)) }
    {
        match (self, first) {
            (Arrangement::Pages, true) | (Arrangement::Rows, true) | (Arrangement::Lines, _) => {
                text.extend_from_slice(own)?;
                Ok(())
            }
            (Arrangement::Pages, false) => {
                text.push(FORM_FEED)?;
                text.extend_from_slice(own)?;
                Ok(())
            }
            (Arrangement::Rows, false) => {
                text.extend_from_slice(after_line(own))?;
                Ok(())
            }
            (Arrangement::NamedDifferences(form), _) => {
                let front = front_of(alloc, name, form)?;
                push_behind(text, &front, after_line(own))
            }
            (Arrangement::NamedDirections(form), _) => {
                let front = front_of(alloc, name, form)?;
                push_behind(text, &front, own)
            }
        }
    }
}

/// What stands after the first line of a text.
fn after_line(text: &[u8]) -> &[u8]
    ensures { result.now ≡ spec.after_line text.now }
{
    'bytes: for place in 0..text.len() {
        if text[place] == b'\n' {
            return &text[place + 1..];
        }
    }
    b""
}

/// The row of a name and an empty cell, as `csv` writes it.
fn row_of(alloc: Global, name: &[u8], form: RowForm) -> Result<Vec<u8>, AllocError>
    ensures { IfOk result (λ row. row.items ≡ row_text (writer_of form) (name.now ∷ [] ∷ [])) }
{
    let mut writer = rows_in(form, Vec::new(alloc));
    write_row(&mut writer, &[name, b"".as_slice()])?;
    writer.into_inner().map_err(|_| AllocError)
}

/// The cell of a name in a form, and what stands between it and the next.
fn front_of(alloc: Global, name: Name, form: RowForm) -> Result<Vec<u8>, AllocError>
    ensures { IfOk result (λ front. front.items ≡ cell_text form name) }
{
    let mut front = row_of(alloc, name.bytes(), form)?;
    // After the separator there is an empty cell, and the end of the line.
    front.truncate(front.len() - 1);
    Ok(front)
}

/// Adds a text with a front before each of its lines.
fn push_behind(text: &mut Vec<u8>, front: &[u8], own: &[u8]) -> Result<(), AllocError>
    ensures { OnOk result
        (text.new.items ≡ text.old.items ++ spec.behind true front.now own.now) }
{
    let mut starts = true;
    'bytes: for &byte in own {
        if starts {
            text.extend_from_slice(front)?;
        }
        text.push(byte)?;
        starts = byte == b'\n';
    }
    Ok(())
}
