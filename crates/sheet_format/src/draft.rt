//! The sheet as far as its rows were read.
//!
//! A draft takes the rows one by one and keeps the entry of each. The entries say what may come
//! next; there is no other state. Each entry is tested when it is taken and never again: the
//! entries of a draft keep the rules of a sheet's.

ghost use Rattle.std.specs.Prelude.{◌≡◌, ◌≤◌, if◌then◌else◌, length, None, Some, IfErr, IfNone};
ghost use Rattle.std.specs.Prelude.{IfSome, OnOk};
ghost use Rattle.adjust_kernel.specs.Sheets.{IsSheet, SheetValue};
ghost use Rattle.csv.specs.Records.{fields_of};
ghost use Rattle.sheet_format.specs.Columns.{columns_view};
ghost use Rattle.sheet_format.specs.Drafts as spec;
ghost use Rattle.sheet_format.specs.Faults as faults;
ghost use Rattle.sheet_format.specs.declared.draft.Refusal.TheVariants.{Fault, Memory};
ghost use Rattle.sheet_format.specs.declared.row_type.RowType.TheVariants as row_type;

use crate::columns::Columns;
use crate::entry::{Header, direction_of, header_of, obs_row_of, orientation_of};
use crate::fault::RowKind;
use crate::row_type::RowType;
use crate::version::Version;
use adjust_kernel::{Direction, MOST_ROWS, MOST_SETS, MOST_TARGETS, Orientation, Row, Sheet};
use csv::ByteRecord;
use std::alloc::{AllocError, AllocFailed, Global};
use std::marker::Model;

/// Why a row was not taken.
#[derive(Drop)]
pub(crate) enum Refusal {
    /// The row has this fault.
    Fault(RowKind),
    /// There was no memory.
    Memory,
}

impl From<RowKind> for Refusal {
    ghost from_gives = { λ kind refusal. refusal ≡ Fault kind };

    fn from(kind: RowKind) -> Refusal {
        Refusal::Fault(kind)
    }
}

impl From<AllocError> for Refusal {
    ghost from_gives = { λ _ refusal. refusal ≡ Memory };

    fn from(_: AllocError) -> Refusal {
        Refusal::Memory
    }
}

impl<T: Drop> From<AllocFailed<T>> for Refusal {
    ghost from_gives = { λ _ refusal. refusal ≡ Memory };

    fn from(_: AllocFailed<T>) -> Refusal {
        Refusal::Memory
    }
}

/// The entries of the rows that were read so far.
#[derive(Drop)]
pub(crate) struct Draft {
    header: Option<Header>,
    directions: Vec<Direction>,
    orientations: Vec<Orientation>,
    rows: Vec<Row>,
}

impl Model for Draft {
    ghost use Rattle.sheet_format.specs.Drafts as spec;

    ghost Value = { spec.DraftValue };

    ghost view = { λ d.
        spec.draft_of d.header d.directions.items d.orientations.items d.rows.items };

    ghost invariant = { λ d. spec.KeepsRules
        (spec.draft_of d.header d.directions.items d.orientations.items d.rows.items) };
}

impl Draft {
    /// The draft before any row.
    pub(crate) fn new(alloc: Global) -> Draft
        ensures { result ≡ spec.blank }
    {
        Draft {
            header: None,
            directions: Vec::new(alloc),
            orientations: Vec::new(alloc),
            rows: Vec::new(alloc),
        }
    }

    /// The type of the last row.
    fn last(&self) -> Option<RowType>
        ensures { result ≡ spec.last_of_draft self.now }
    {
        if !self.rows.is_empty() {
            Some(RowType::Obs)
        } else if !self.orientations.is_empty() {
            Some(RowType::Set)
        } else if !self.directions.is_empty() {
            Some(RowType::Target)
        } else {
            self.header.map(|_| RowType::Sheet)
        }
    }

    /// The version that the first row named.
    fn version(&self) -> Version
        ensures { result ≡ spec.version_of_header self.now.header }
    {
        match self.header {
            Some(header) => header.version,
            None => Version::One,
        }
    }

    /// How many rows were taken.
    pub(crate) fn taken(&self) -> u32
        ensures { result ≡ length (spec.rows_of_draft self.now) }
    {
        let headers = if self.header.is_some() { 1 } else { 0 };
        headers
            + self.directions.len() as u32
            + self.orientations.len() as u32
            + self.rows.len() as u32
    }

    /// The sheet of these rows, if it has all parts of one.
    pub(crate) fn finish(self) -> Option<Sheet>
        ensures some { IfSome result (λ sheet. spec.IsOfDraft self sheet) }
        ensures valid { IfSome result IsSheet }
        ensures none { IfNone result
            ((sheet : SheetValue) → spec.IsOfDraft self sheet → IsSheet sheet → ⊥) }
    {
        let Draft {
            header,
            directions,
            orientations,
            rows,
        } = self;
        let header = header?;
        if directions.is_empty() || orientations.is_empty() || rows.is_empty() {
            return None;
        }
        Some(Sheet::from_valid(
            header.name,
            header.denominator,
            directions,
            orientations,
            rows,
        ))
    }

    /// Takes the next row.
    #[tactic(auto, unfolding(crate::specs::Faults::row_fault, crate::specs::Drafts::with_row))]
    pub(crate) fn take_row(&mut self, row: &ByteRecord) -> Result<(), Refusal>
        ensures faultless { OnOk result
            (faults.row_fault (spec.said_by_draft self.old) (fields_of row.now) ≡ None) }
        ensures taken { OnOk result (self.new ≡ spec.with_row self.old (fields_of row.now)) }
        ensures fault { IfErr result
            (λ e. spec.ExplainsRow e
            (faults.row_fault (spec.said_by_draft self.old) (fields_of row.now))) }
    {
        let Some(columns) = Columns::parse(row) else {
            return Err(Refusal::Fault(RowKind::Fields));
        };
        let Some(row_type) = RowType::parse(columns.row_type) else {
            return Err(Refusal::Fault(RowKind::Kind));
        };
        if !row_type.may_follow(self.last()) {
            return Err(Refusal::Fault(RowKind::Kind));
        }
        match row_type {
            RowType::Sheet => self.take_header(&columns),
            RowType::Target => self.take_target(&columns),
            RowType::Set => self.take_set(&columns),
            RowType::Obs => self.take_obs(&columns),
        }
    }

    fn take_header(&mut self, columns: &Columns<'_>) -> Result<(), Refusal>
        ensures faultless { OnOk result
            (faults.columns_fault (spec.said_by_draft self.old) row_type.Sheet
            (columns_view columns.now) ≡ None) }
        ensures taken { OnOk result
            (self.new ≡ spec.with_columns row_type.Sheet self.old (columns_view columns.now)) }
        ensures fault { IfErr result
            (λ e. spec.ExplainsRow e
            (faults.columns_fault (spec.said_by_draft self.old) row_type.Sheet
            (columns_view columns.now))) }
    {
        self.header = Some(header_of(columns)?);
        Ok(())
    }

    fn take_target(&mut self, columns: &Columns<'_>) -> Result<(), Refusal>
        ensures faultless { OnOk result
            (faults.columns_fault (spec.said_by_draft self.old) row_type.Target
            (columns_view columns.now) ≡ None) }
        ensures taken { OnOk result
            (self.new ≡ spec.with_columns row_type.Target self.old (columns_view columns.now)) }
        ensures fault { IfErr result
            (λ e. spec.ExplainsRow e
            (faults.columns_fault (spec.said_by_draft self.old) row_type.Target
            (columns_view columns.now))) }
    {
        let direction = direction_of(columns, self.version())?;
        if self.directions.len() >= MOST_TARGETS {
            return Err(Refusal::Fault(RowKind::TooMany));
        }
        self.directions.push(direction)?;
        Ok(())
    }

    fn take_set(&mut self, columns: &Columns<'_>) -> Result<(), Refusal>
        ensures faultless { OnOk result
            (faults.columns_fault (spec.said_by_draft self.old) row_type.Set
            (columns_view columns.now) ≡ None) }
        ensures taken { OnOk result
            (self.new ≡ spec.with_columns row_type.Set self.old (columns_view columns.now)) }
        ensures fault { IfErr result
            (λ e. spec.ExplainsRow e
            (faults.columns_fault (spec.said_by_draft self.old) row_type.Set
            (columns_view columns.now))) }
    {
        let orientation = orientation_of(columns, self.version())?;
        if self.orientations.len() >= MOST_SETS {
            return Err(Refusal::Fault(RowKind::TooMany));
        }
        self.orientations.push(orientation)?;
        Ok(())
    }

    /// Makes room for the rows of all observations where the first of them comes, as many as a
    /// sheet of these targets and sets may have: so none is copied as they grow.
    fn make_room(&mut self) -> Result<(), AllocError>
        ensures { self.new ≡ self.old }
    {
        if !self.rows.is_empty() {
            return Ok(());
        }
        self.rows
            .reserve(self.directions.len() * self.orientations.len())
    }

    fn take_obs(&mut self, columns: &Columns<'_>) -> Result<(), Refusal>
        ensures faultless { OnOk result
            (faults.columns_fault (spec.said_by_draft self.old) row_type.Obs
            (columns_view columns.now) ≡ None) }
        ensures taken { OnOk result
            (self.new ≡ spec.with_columns row_type.Obs self.old (columns_view columns.now)) }
        ensures fault { IfErr result
            (λ e. spec.ExplainsRow e
            (faults.columns_fault (spec.said_by_draft self.old) row_type.Obs
            (columns_view columns.now))) }
    {
        let row = obs_row_of(columns)?;
        if self.rows.len() >= MOST_ROWS {
            return Err(Refusal::Fault(RowKind::TooMany));
        }
        self.make_room()?;
        self.rows.push(row)?;
        Ok(())
    }
}
