//! How the stations of a field file begin.

use adjust_kernel::Name;

/// How the stations of a field file begin, as far as it is stated: by its set-up lines, where
/// nothing is.
#[derive(Clone, Copy, Debug, PartialEq, Eq, Drop)]
pub struct Beginnings {
    /// The name of the file's one station, where its lines set none up.
    pub station: Option<Name>,
    /// Whether a set-up line that has the name of the station that is open begins nothing.
    pub same_set_up: bool,
    /// The code whose blocks begin a station each, of the name in their first information.
    pub code: Option<Name>,
}
