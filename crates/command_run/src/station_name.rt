//! The name of a station that a run is of.

ghost use Rattle.std.specs.Prelude.{◌≡◌};
ghost use Rattle.command_run.specs.StationNames.{name_bytes};

use adjust_kernel::Name;

/// The name of a station, as it is stated or as its file has it.
#[derive(Clone, Copy, Drop)]
pub(crate) enum StationName<'a> {
    /// It is stated.
    Stated(&'a str),

    /// It is that of the only station of the file.
    Only(Name),
}

impl StationName<'_> {
    /// Its bytes.
    pub(crate) fn as_bytes(&self) -> &[u8]
        ensures { result.now ≡ name_bytes self.now }
    {
        match self {
            StationName::Stated(name) => name.as_bytes(),
            StationName::Only(name) => name.bytes(),
        }
    }
}
