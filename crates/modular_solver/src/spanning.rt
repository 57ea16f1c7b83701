//! First angles, by way of a spanning of all sets and targets.
//!
//! An angle is carried from the first target along observations, each to an end that has none yet,
//! until all have one. So the observations that carried agree with the angles exactly, and the
//! others show how many full turns they need.
ghost use Rattle.std.specs.Prelude.{◌≤◌, All};
ghost use Rattle.adjust_kernel.specs.Stations.{IsObs};

use adjust_kernel::{MOST_NODES, MOST_SETS, MOST_TARGETS, Obs, TURN, are_marked};

/// An angle with another added, on the circle.
fn onwards(angle: u32, value: u32) -> u32 {
    ((u64::from(angle) + u64::from(value)) % u64::from(TURN)) as u32
}

/// An angle with another taken off, on the circle.
fn backwards(angle: u32, value: u32) -> u32 {
    ((u64::from(angle) + u64::from(TURN) - u64::from(value % TURN)) % u64::from(TURN)) as u32
}

/// Carries angles along all observations, once each.
fn carry(
    angles: &mut [u32; MOST_NODES],
    reached: &mut [bool; MOST_NODES],
    sets: usize,
    targets: usize,
    obs: &[Obs],
)
    requires sets { sets ≤ MOST_SETS }
    requires targets { targets ≤ MOST_TARGETS }
    requires obs { All (IsObs sets targets) obs.now }
{
    for each in obs {
        let set = each.set as usize;
        let target = sets + each.target as usize;
        if reached[set] && !reached[target] {
            angles[target] = onwards(angles[set], each.value);
            reached[target] = true;
        } else if reached[target] && !reached[set] {
            angles[set] = backwards(angles[target], each.value);
            reached[set] = true;
        }
    }
}

/// First angles of all sets and targets, in half units on the circle.
pub(crate) fn first_angles(sets: usize, targets: usize, obs: &[Obs]) -> [u32; MOST_NODES]
    requires sets { sets ≤ MOST_SETS }
    requires targets { targets ≤ MOST_TARGETS }
    requires obs { All (IsObs sets targets) obs.now }
{
    let nodes = sets + targets;
    let mut angles = [0; MOST_NODES];
    let mut reached = [false; MOST_NODES];
    if targets == 0 {
        return angles;
    }
    reached[sets] = true;
    for _ in 0..nodes {
        if are_marked(&reached, nodes) {
            return angles;
        }
        carry(&mut angles, &mut reached, sets, targets, obs);
    }
    angles
}
