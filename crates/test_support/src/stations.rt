//! Small stations.

use adjust_kernel::{Name, Obs, Station};
use std::alloc::Global;
use std::test::Fail;

/// An observation: the places of its set and its target, and its two-face direction in half units.
pub type Observed = (u32, u32, u32);

/// The station S of targets A, B and so on, and of this many sets, with these observations.
pub fn station_of(
    alloc: Global,
    sets: u16,
    letters: &[u8],
    observed: &[Observed],
) -> Result<Station, Fail> {
    let mut names = Vec::new(alloc);
    for letter in letters {
        names.push(Name::new(&[*letter]).ok_or("no name")?)?;
    }
    let mut numbers = Vec::new(alloc);
    for number in 1..=sets {
        numbers.push(number)?;
    }
    let mut obs = Vec::new(alloc);
    for (set, target, value) in observed {
        obs.push(Obs {
            set: *set,
            target: *target,
            value: *value,
        })?;
    }
    let name = Name::new(b"S").ok_or("no name")?;
    Ok(Station::new(name, names, numbers, obs).ok_or("no station")?)
}
