//! The two versions of a sheet. They differ in the ranges of the denominator, the directions and
//! the orientations.

ghost use Rattle.std.specs.Prelude.{◌≡◌};
ghost use Rattle.std.specs.List.{list_all};
ghost use Rattle.sheet_format.specs.Numbers.{is_at_most};
ghost use Rattle.sheet_format.specs.Texts.{is_of_version, version_for};
ghost use Rattle.sheet_format.specs.Versions as spec;

use adjust_kernel::{Direction, LARGEST_ANGLE, LARGEST_DENOMINATOR, Orientation, Sheet};

/// The largest denominator of a sheet of version 1; the smallest is 1.
pub(crate) const LARGEST_DENOMINATOR_OF_ONE: u64 = 1_000_000_000;

/// The largest size of a direction or orientation of a sheet of version 1, in half units times the
/// denominator.
pub(crate) const LARGEST_ANGLE_OF_ONE: i128 = 1_000_000_000_000_000_000;

/// The version of a sheet, as its first row names it.
#[derive(Clone, Copy)]
pub(crate) enum Version {
    One,
    Two,
}

impl Version {
    /// The version that a field names.
    pub(crate) fn parse(field: &[u8]) -> Option<Version>
        ensures { result ≡ spec.version_of field.now }
    {
        match field {
            b"1" => Some(Version::One),
            b"2" => Some(Version::Two),
            _ => None,
        }
    }

    /// The field that names it.
    pub(crate) fn text(self) -> &'static [u8]
        ensures { result.now ≡ spec.version_text self }
    {
        match self {
            Version::One => b"1".as_slice(),
            Version::Two => b"2".as_slice(),
        }
    }

    /// The largest denominator.
    pub(crate) fn largest_denominator(self) -> u64
        ensures { result ≡ spec.largest_denominator self }
    {
        match self {
            Version::One => LARGEST_DENOMINATOR_OF_ONE,
            Version::Two => LARGEST_DENOMINATOR,
        }
    }

    /// The largest size of a direction or orientation.
    pub(crate) fn largest_angle(self) -> i128
        ensures { result ≡ spec.largest_angle self }
    {
        match self {
            Version::One => LARGEST_ANGLE_OF_ONE,
            Version::Two => LARGEST_ANGLE,
        }
    }

    /// The version that a sheet is written in: 1 where all its numbers are within the ranges of 1.
    pub(crate) fn for_sheet(sheet: &Sheet) -> Version
        ensures { result ≡ version_for sheet.now }
    {
        if Version::One.takes(sheet) {
            Version::One
        } else {
            Version::Two
        }
    }

    /// Whether the numbers of a sheet are within its ranges.
    fn takes(self, sheet: &Sheet) -> bool
        ensures { result ≡ is_of_version self sheet.now }
    {
        sheet.denominator() <= self.largest_denominator()
            && self.takes_directions(sheet.directions())
            && self.takes_orientations(sheet.orientations())
    }

    fn takes_directions(self, directions: &[Direction]) -> bool
        ensures { result ≡ list_all
            (λ d. is_at_most (spec.largest_angle self) d.value) directions.now }
    {
        let most = self.largest_angle();
        directions.iter().all(|direction| -most <= direction.value && direction.value <= most)
    }

    fn takes_orientations(self, orientations: &[Orientation]) -> bool
        ensures { result ≡ list_all
            (λ o. is_at_most (spec.largest_angle self) o.value) orientations.now }
    {
        let most = self.largest_angle();
        orientations.iter().all(|orientation| -most <= orientation.value
            && orientation.value <= most)
    }
}
