//! What the line of a refusal names.

ghost use Rattle.std.specs.Prelude.{◌≡◌};
ghost use Rattle.refusal_places.specs.NamedPlaces as spec;

use crate::number::number_after;

/// What the line of a refusal names by its number, from 1.
#[derive(Clone, Copy, Debug, PartialEq, Eq)]
pub enum Named {
    /// A line of the field file that is not blank.
    Block(u64),
    /// A row of the sheet.
    SheetRow(u64),
    /// A row of the table.
    TableRow(u64),
    /// Of the rows of the sheet, one of those of targets.
    Target(u64),
    /// Of the rows of the sheet, one of those of sets.
    Set(u64),
    /// Of the rows of the sheet, one of those of observations.
    Observation(u64),
    /// A target of the station that a table lacks.
    StationTarget(u64),
    /// An observation of the station.
    StationObservation(u64),
}

/// What the line of a refusal names, if anything: by its number, or the first row where it names no
/// other.
pub fn named_in(line: &[u8]) -> Option<Named>
    ensures { result ≡ spec.named_in line.now }
{
    match in_files(line) {
        Some(named) => Some(named),
        None => match in_kinds(line) {
            Some(named) => Some(named),
            None => match in_station(line) {
                Some(named) => Some(named),
                None => in_first_row(line),
            },
        },
    }
}

/// The block of the field file, or the row of the sheet or the table, that the line names.
fn in_files(line: &[u8]) -> Option<Named>
    ensures { result ≡ spec.in_files line.now }
{
    if let Some(number) = number_after(line, b"refused: block ") {
        return Some(Named::Block(number));
    }
    if let Some(number) = number_after(line, b"refused: sheet row ") {
        return Some(Named::SheetRow(number));
    }
    if let Some(number) = number_after(line, b"refused: table row ") {
        return Some(Named::TableRow(number));
    }
    None
}

/// Of the sheet's rows of a kind, the one that the line names.
fn in_kinds(line: &[u8]) -> Option<Named>
    ensures { result ≡ spec.in_kinds line.now }
{
    if let Some(number) = number_after(line, b"refused: kernel: TargetRow ") {
        return Some(Named::Target(number));
    }
    if let Some(number) = number_after(line, b"refused: kernel: TargetSum ") {
        return Some(Named::Target(number));
    }
    if let Some(number) = number_after(line, b"refused: kernel: SetRow ") {
        return Some(Named::Set(number));
    }
    if let Some(number) = number_after(line, b"refused: kernel: SetSum ") {
        return Some(Named::Set(number));
    }
    if let Some(number) = number_after(line, b"refused: kernel: ObsRow ") {
        return Some(Named::Observation(number));
    }
    if let Some(number) = number_after(line, b"refused: kernel: Residual ") {
        return Some(Named::Observation(number));
    }
    None
}

/// The target or the observation of the station that the line names.
fn in_station(line: &[u8]) -> Option<Named>
    ensures { result ≡ spec.in_station line.now }
{
    if let Some(number) = number_after(line, b"refused: table: Missing ") {
        return Some(Named::StationTarget(number));
    }
    if let Some(number) = number_after(line, b"refused: adjust: Residual ") {
        return Some(Named::StationObservation(number));
    }
    None
}

/// The first row of the sheet, or of its targets, where the line names what stands there: the station,
/// or the direction that is to be 0.
fn in_first_row(line: &[u8]) -> Option<Named>
    ensures { result ≡ spec.in_first_row line.now }
{
    if line.starts_with(b"refused: no station") {
        return Some(Named::SheetRow(1));
    }
    if line.starts_with(b"refused: kernel: Datum") {
        return Some(Named::Target(1));
    }
    None
}
