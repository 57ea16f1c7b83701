//! What the program is asked to do.

use adjust_kernel::ResidualLimit;
use changed_lines::Change;
use direction_table::{AngleUnit, ColumnPair, Decimals};
use job_statements::{Beginnings, Stated};
use report_notes::Notes;
use row_forms::RowForm;
use station_book::{Limits, ResultLimits};
use station_explain::Explanation;

/// Whether the digests of the files that were read are printed.
#[derive(Clone, Copy)]
pub enum Digests {
    /// None is.
    Omitted,

    /// After the line of an acceptance or an agreement, or the text of a report, stands one line a
    /// file, as `sha256sum` prints it.
    Printed,
}

/// The form in which a result is printed.
#[derive(Clone, Copy)]
pub enum ListForm {
    /// Lines to read.
    Lines,

    /// Rows for other programs, as CSV.
    Rows(RowForm),
}

/// A sheet that is to be checked.
#[derive(Drop)]
pub struct SheetCheck<F> {
    /// The field file that it is checked against.
    pub gsi: F,

    /// The sheet.
    pub sheet: F,

    /// The limits of face differences.
    pub limits: Limits,

    /// The limit of residuals, where one is stated.
    pub residual: Option<ResidualLimit>,

    /// Whether the digests of both files are printed.
    pub digests: Digests,
}

/// The columns of a table, as they are stated.
#[derive(Clone, Copy)]
pub enum ColumnsStated<'a> {
    /// By their numbers.
    Numbers(ColumnPair),

    /// By their titles: the first row of the table has each once.
    Titles {
        targets: &'a str,
        directions: &'a str,
    },
}

/// How a table is to be read, as it is stated.
#[derive(Clone, Copy)]
pub struct FormStated<'a> {
    /// The unit of its directions.
    pub unit: AngleUnit,

    /// Its columns, where they are stated.
    pub columns: Option<ColumnsStated<'a>>,
}

/// A station that is adjusted, whose name is of type `S`.
#[derive(Drop)]
pub struct FieldStation<F, S> {
    /// The field file that has it.
    pub gsi: F,

    /// Its name.
    pub name: S,

    /// The limits that it is held to.
    pub limits: ResultLimits,
}

/// All stations of a field file, each of which is adjusted.
#[derive(Drop)]
pub struct FieldStations<F> {
    /// The field file that has them.
    pub gsi: F,

    /// The limits that they are held to.
    pub limits: ResultLimits,
}

/// A table of directions, and the station beside which it stands.
#[derive(Drop)]
pub struct TableBeside<F, S, T> {
    /// The station.
    pub station: FieldStation<F, S>,

    /// The table's file.
    pub file: F,

    /// How it is read: the unit of its directions, and its columns.
    pub form: T,
}

/// All stations of a field file, and one table of the directions of all.
#[derive(Drop)]
pub struct StationsBeside<F, T> {
    /// The stations.
    pub stations: FieldStations<F>,

    /// The table's file.
    pub file: F,

    /// How it is read: the unit of its directions, and its columns.
    pub form: T,
}

/// What is printed of a station.
#[derive(Drop)]
pub enum StationText<'a> {
    /// Its least-squares directions, as a table.
    Directions { decimals: Decimals, form: RowForm },

    /// Its report, with these notes.
    Report { digests: Digests, notes: Notes<'a> },

    /// The report as rows for other programs.
    ReportRows { digests: Digests, form: RowForm },
}

/// What is printed of all stations: of each what is printed of it alone.
#[derive(Drop)]
pub enum StationsText<'a> {
    /// Their least-squares directions, as a table in a form.
    Directions { decimals: Decimals, form: RowForm },

    /// Their reports, page after page, each with these notes.
    Reports { notes: Notes<'a> },

    /// The reports as rows for other programs.
    ReportRows { form: RowForm },
}

/// What is printed of a station and of a table beside it.
#[derive(Drop)]
pub enum TableText<'a> {
    /// Whether they agree: within so many units of 0.000001 gon, or where none are stated within
    /// what is usual for the table's rows.
    Comparison {
        within: Option<u32>,
        digests: Digests,
    },

    /// How far the table is off, target by target.
    Differences {
        form: RowForm,
    },

    /// The same as JSON lines.
    JsonLines,

    /// The report of the station, with these notes and with the table beside its directions: they
    /// agree as for `Comparison`.
    Report {
        within: Option<u32>,
        digests: Digests,
        notes: Notes<'a>,
    },
}

/// What is printed of all stations and of one table of them: of each what is printed of it and of
/// its part of the table.
#[derive(Drop)]
pub enum AllTableText {
    /// Whether they agree, as for `TableText::Comparison`.
    Comparison { within: Option<u32> },

    /// How far the table is off, target by target.
    Differences { form: RowForm },
}

/// A request as the words of a command line state it: its files are paths, the name of a station
/// may be left out, which is then the only one of its file, and columns may be stated by titles.
pub type Asked<'a> = Request<'a, &'a str, &'a str, Option<&'a str>, FormStated<'a>>;

/// What the program is asked to do with files of type `F`, which are read, and of type `N`, which
/// are new: their paths, or the files once they are open. The name of a station is of type `S`, and
/// how a table is read of type `T`: as they are stated, or as they are found in the files. A
/// variant is a shape: the files, and what is stated of them. What is printed of one shape is a
/// text of its own.
#[derive(Drop)]
pub enum Request<'a, F, N, S, T> {
    /// Checks a sheet against a field file.
    Check(SheetCheck<F>),

    /// Prints the sheet of means of a station of a field file.
    Means {
        gsi: F,
        station: S,
        limits: Limits,
    },

    /// Prints a text of a station of a field file.
    Station {
        station: FieldStation<F, S>,
        text: StationText<'a>,
    },

    /// Prints a text of all stations of a field file.
    Stations {
        stations: FieldStations<F>,
        text: StationsText<'a>,
    },

    /// Prints a text of a station of a field file and of a table.
    Table {
        beside: TableBeside<F, S, T>,
        text: TableText<'a>,
    },

    /// Prints a text of all stations of a field file and of one table of them.
    StationsTable {
        beside: StationsBeside<F, T>,
        text: AllTableText,
    },

    /// Prints a copy of a field file with codes put in, or writes it to a new file of the path that
    /// is named. `beginnings` is how its stations begin.
    Mark {
        gsi: F,
        copy: Option<N>,
        beginnings: Beginnings,
        stated: Stated,
    },

    /// Prints a copy of a field file in which just these lines are changed, or writes it to a new
    /// file of the path that is named.
    Change {
        gsi: F,
        copy: Option<N>,
        changes: Vec<Change>,
    },

    /// Lists the stations of a field file.
    List {
        gsi: F,
        limits: Limits,
        form: ListForm,
    },

    /// Prints the words of a field file.
    Words {
        gsi: F,
    },

    /// Prints the words of standard input.
    WordsOfInput,

    /// Explains a fault, or prints the names of all.
    Explain {
        fault: Option<&'static Explanation>,
    },
}
