//! The records of a text in memory, as `csv` reads them, byte by byte.
ghost use Rattle.std.specs.Prelude.{◌≡◌, ◌<◌, ◌++◌, ◌∷◌, [], length, true, IfOk, OnOk};
ghost use Rattle.csv.specs.Reading.{strip_bom};
ghost use Rattle.csv.specs.Records.{fields_of, partial_of};
ghost use Rattle.direction_table.specs.ByteSteps as spec;
ghost use Rattle.direction_table.specs.Separators.{byte_of};

use crate::separator::Separator;
use csv::ByteRecord;
use row_forms::{Place, Step, is_in_row, step_at, without_mark};
use std::alloc::{AllocError, Global};

/// The records of a text that are left to be read.
#[derive(Drop)]
pub(crate) struct Records<'a> {
    separator: u8,
    unread: &'a [u8],
    /// The bytes so far of the field that is read.
    field: Vec<u8>,
}

impl<'a> Records<'a> {
    /// All records of a text whose fields are separated so; a byte order mark at its start is
    /// dropped.
    pub(crate) fn of(alloc: Global, separator: Separator, text: &'a [u8]) -> Records<'a>
        ensures separator { result.separator ≡ byte_of separator }
        ensures unread { result.unread.now ≡ strip_bom text.now }
    {
        Records {
            separator: separator.byte(),
            unread: without_mark(text),
            field: Vec::new(alloc),
        }
    }

    /// Reads the next record in place of another one, and answers whether there was one.
    #[tactic(auto, using(crate::proofs::BytesRead::byte_by_byte))]
    pub(crate) fn next(&mut self, row: &mut ByteRecord) -> Result<bool, AllocError>
        ensures next { IfOk result (λ found. spec.IsNextRecord (spec.records_left self.old) found
            (fields_of row.new) (spec.records_left self.new)) }
        ensures separator { self.new.separator ≡ self.old.separator }
        ensures shorter { IfOk result (λ found. found ≡ true
            → length self.new.unread.now < length self.old.unread.now) }
    {
        row.clear();
        self.field.clear();
        let text = self.unread;
        let mut place = Place::RowStart;
        for at in 0..text.len() {
            match step_at(place, self.separator, text[at]) {
                Step::Skip(next) => place = next,
                Step::Keep(next) => {
                    self.field.push(text[at])?;
                    place = next;
                }
                Step::EndField => {
                    self.end_field(row)?;
                    place = Place::FieldStart;
                }
                Step::EndRow => {
                    self.end_field(row)?;
                    self.unread = &text[at + 1..];
                    return Ok(true);
                }
            }
        }
        self.unread = &[];
        if !is_in_row(place) {
            return Ok(false);
        }
        self.end_field(row)?;
        Ok(true)
    }

    /// Adds the field that was read to a record, and begins the next one.
    fn end_field(&mut self, row: &mut ByteRecord) -> Result<(), AllocError>
        requires { partial_of row.old ≡ [] }
        ensures fields { OnOk result (fields_of row.new
            ≡ fields_of row.old ++ (self.old.field.items ∷ [])) }
        ensures partial { OnOk result (partial_of row.new ≡ []) }
        ensures field { OnOk result (self.new.field.items ≡ []) }
        ensures separator { self.new.separator ≡ self.old.separator }
        ensures unread { self.new.unread ≡ self.old.unread }
    {
        row.push_field(self.field.as_slice())?;
        self.field.clear();
        Ok(())
    }
}
