//! The two forms of rows.
ghost use Rattle.std.specs.Prelude.{◌≡◌};
ghost use Rattle.row_forms.specs.Forms as spec;

/// How rows are written: what stands between their cells, and the point of their numbers.
#[derive(Clone, Copy, Debug, PartialEq, Eq, Drop)]
pub enum RowForm {
    /// Commas between cells, and points in numbers: for programs, and for a spreadsheet that is set
    /// to English.
    Commas,

    /// Semicolons between cells, and commas in numbers: for a spreadsheet that is set to German or
    /// French.
    Semicolons,
}

impl RowForm {
    /// What stands between two cells of a row.
    pub fn separator(self) -> u8
        ensures { result ≡ spec.separator self }
    {
        match self {
            RowForm::Commas => b',',
            RowForm::Semicolons => b';',
        }
    }

    /// The point of a number.
    pub fn point(self) -> u8
        ensures { result ≡ spec.point_of self }
    {
        match self {
            RowForm::Commas => b'.',
            RowForm::Semicolons => b',',
        }
    }
}
