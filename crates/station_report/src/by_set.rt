//! The lines of a station's observations, set by set.
ghost use Rattle.std.specs.Prelude.{◌≡◌, ◌++◌, OnOk, length};
ghost use Rattle.station_report.specs.ReportTexts as spec;

use crate::lines::{Lines, push_lines};
use crate::places::observation_at;
use adjust_kernel::Station;
use std::alloc::AllocError;

/// The lines of the observations of a set.
#[derive(Drop)]
struct OfSet<'a, L: Lines> {
    station: &'a Station,
    lines: &'a L,
    set: usize,
    ghost each: { L.places lines.now ≡ length station.now.obs },
}

impl<'a, L: Lines> Lines for OfSet<'a, L> {
    ghost places = { λ its. length its.station.now.obs };

    ghost line = { λ its. spec.line_of its.station.now (L.line its.lines.now) its.set };

    fn count(&self) -> usize {
        self.station.obs().len()
    }

    fn add(&self, text: &mut Vec<u8>, field: &mut Vec<u8>, place: usize) -> Result<(), AllocError> {
        if observation_at(self.station, place).set as usize == self.set {
            return self.lines.add(text, field, place);
        }
        Ok(())
    }
}

/// The lines of all sets, each after an empty line.
#[derive(Drop)]
struct Sets<'a, L: Lines> {
    station: &'a Station,
    lines: &'a L,
    ghost each: { L.places lines.now ≡ length station.now.obs },
}

impl<'a, L: Lines> Lines for Sets<'a, L> {
    ghost places = { λ its. length its.station.now.sets };

    ghost line = { λ its. spec.set_text its.station.now (L.line its.lines.now) };

    fn count(&self) -> usize {
        self.station.sets().len()
    }

    fn add(&self, text: &mut Vec<u8>, field: &mut Vec<u8>, place: usize) -> Result<(), AllocError> {
        let lines = OfSet {
            station: self.station,
            lines: self.lines,
            set: place,
        };
        text.push(b'\n')?;
        push_lines(text, field, &lines)
    }
}

/// Adds the lines of a station's observations, set by set.
pub(crate) fn push_sets<L: Lines>(
    text: &mut Vec<u8>,
    field: &mut Vec<u8>,
    station: &Station,
    lines: &L,
) -> Result<(), AllocError>
    requires { L.places lines.now ≡ length station.now.obs }
    ensures { OnOk result
        (text.new.items ≡ text.old.items ++ spec.sets_text station.now (L.line lines.now)) }
{
    push_lines(text, field, &Sets { station, lines })
}
