//! The code that is stated as one whose blocks begin a station each.

ghost use Rattle.std.specs.Prelude.{IfNone, IfSome};
ghost use Rattle.job_statements.specs.StationCodes.{IsNoStationCode, IsStationCode};

use crate::zeros::bare_name;
use adjust_kernel::Name;

/// The code that a text states, without zeros before it; none where the text is no code, or one of
/// those that are put in.
pub fn station_code(text: &[u8]) -> Option<Name>
    ensures code { IfSome result (IsStationCode text.now) }
    ensures none { IfNone result (IsNoStationCode text.now) }
{
    let code = bare_name(&Name::new(text)?);
    match code.bytes() {
        b"10" | b"20" | b"30" => None,
        _ => Some(code),
    }
}
