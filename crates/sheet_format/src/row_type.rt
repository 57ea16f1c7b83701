//! The four types of rows, and their order in a sheet.

ghost use Rattle.std.specs.Prelude.{◌≡◌};
ghost use Rattle.sheet_format.specs.RowTypes as spec;

/// What a row states.
#[derive(Clone, Copy, PartialEq, Eq)]
pub(crate) enum RowType {
    /// The version, the station and the denominator.
    Sheet,
    /// The direction of a target.
    Target,
    /// The orientation of a set.
    Set,
    /// An observation, with its full turns.
    Obs,
}

impl RowType {
    /// The type that a field names.
    pub(crate) fn parse(field: &[u8]) -> Option<RowType>
        ensures { result ≡ spec.row_type_of field.now }
    {
        // No `match`: of its arms' bytes no proof is found.
        if field == b"sheet".as_slice() {
            Some(RowType::Sheet)
        } else if field == b"target".as_slice() {
            Some(RowType::Target)
        } else if field == b"set".as_slice() {
            Some(RowType::Set)
        } else if field == b"obs".as_slice() {
            Some(RowType::Obs)
        } else {
            None
        }
    }

    /// Whether a row of this type may follow the last row, or be the first.
    pub(crate) fn may_follow(self, last: Option<RowType>) -> bool
        ensures { result ≡ spec.may_follow last self }
    {
        match last {
            None => self == RowType::Sheet,
            Some(RowType::Sheet) => self == RowType::Target,
            Some(RowType::Target) => self == RowType::Target || self == RowType::Set,
            Some(RowType::Set) => self == RowType::Set || self == RowType::Obs,
            Some(RowType::Obs) => self == RowType::Obs,
        }
    }
}
