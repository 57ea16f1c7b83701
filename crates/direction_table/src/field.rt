//! The fields of a row, and what is loose in them.

ghost use Rattle.std.specs.Prelude.{◌≡◌, [], unwrap_or, drop};
ghost use Rattle.std.specs.Char.{is_ascii_whitespace};
ghost use Rattle.std.specs.List.{list_all};
ghost use Rattle.csv.specs.Records.{field_at, fields_of};
ghost use Rattle.direction_table.specs.FieldForms as spec;

use adjust_kernel::Name;
use csv::ByteRecord;

/// The field at a place, or none of its bytes where the row has no such field.
pub(crate) fn field(row: &ByteRecord, at: usize) -> &[u8]
    ensures { result.now ≡ unwrap_or (field_at (fields_of row.now) at) [] }
{
    row.get(at).unwrap_or(&[])
}

/// A field without the white space before it.
pub(crate) fn without_blanks_before(field: &[u8]) -> &[u8]
    ensures { result.now ≡ spec.without_blanks_before field.now }
{
    field.trim_ascii_start()
}

/// A field without the white space after it.
pub(crate) fn without_blanks_after(field: &[u8]) -> &[u8]
    ensures { result.now ≡ spec.without_blanks_after field.now }
{
    field.trim_ascii_end()
}

/// A field without the white space around it.
pub(crate) fn without_blanks(field: &[u8]) -> &[u8]
    ensures { result.now ≡ spec.without_blanks field.now }
{
    without_blanks_after(without_blanks_before(field))
}

/// Whether a field has nothing but white space.
fn is_blank(field: &[u8]) -> bool
    ensures { result ≡ spec.is_blank field.now }
{
    field.iter().all(|byte| byte.is_ascii_whitespace())
}

/// Whether the fields of a row from a place on are blank.
#[tactic(auto, using(crate::proofs::FieldsAt::blank_more))]
pub(crate) fn are_blank_from(row: &ByteRecord, from: usize) -> bool
    ensures { result ≡ list_all spec.is_blank (drop from (fields_of row.now)) }
{
    for at in from..row.len() {
        if !is_blank(field(row, at)) {
            return false;
        }
    }
    true
}

/// Whether a target has this name.
pub(crate) fn has_target(targets: &[Name], name: &[u8]) -> bool
    ensures { result ≡ spec.has_name targets.now name.now }
{
    targets.iter().any(|target| target.bytes() == name)
}

/// The name that a field writes: as it stands, where a target has that name; else without the
/// white space around it.
pub(crate) fn named<'a>(targets: &[Name], field: &'a [u8]) -> &'a [u8]
    ensures { result.now ≡ spec.named targets.now field.now }
{
    if has_target(targets, field) {
        return field;
    }
    without_blanks(field)
}
