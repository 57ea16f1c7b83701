//! Whether full turns are nearest to angles that observations carry to all sets and targets.
ghost use Rattle.std.specs.Prelude.{◌≡◌, ◌↔◌, ◌≤◌, ◌+ℤ◌, ◌-ℤ◌, ◌*ℤ◌, All, IsTrue, length, pos};
ghost use Rattle.adjust_kernel.specs.Pairs.{turned_by};
ghost use Rattle.adjust_kernel.specs.Residuals.{choice_of, residual};
ghost use Rattle.adjust_kernel.specs.Stations.{IsObs};
ghost use Rattle.adjust_kernel.specs.Within.{IsWithin};
ghost use Rattle.adjust_kernel.specs.declared.bounds.TheConstants.{LARGEST_TURN, TURN};
ghost use Rattle.exact_adjustment.specs.LeastOf.{observed_with};
ghost use Rattle.exact_adjustment.specs.Nearest.{AgreeWhereCarried, AreNearestToBoth, AreReached};
ghost use Rattle.exact_adjustment.specs.Nearest.{IsNearest};
ghost use Rattle.exact_adjustment.specs.Carrying.{AgreesIfItCarries, MarksAlong};
ghost use Rattle.adjust_kernel.specs.declared.bounds.TheConstants.{MOST_SETS, MOST_TARGETS};

use adjust_kernel::{MOST_NODES, Obs, Station, TURN, are_marked};

/// Half a circle, in half units.
const HALF_TURN: i128 = TURN as i128 / 2;

/// An observation with its full turns, in half units.
fn unrolled(value: u32, turn: i8) -> i64
    ensures { result ≡ (pos value +ℤ pos TURN *ℤ turn) }
{
    i64::from(value) + i64::from(TURN) * i64::from(turn)
}

/// A number less two others.
fn less_both(number: i64, first: i64, second: i64) -> i128
    ensures { result ≡ (number -ℤ first -ℤ second) }
{
    let number = i128::from(number);
    let first = i128::from(first);
    let second = i128::from(second);
    number - first - second
}

/// By how much angles in whole half units disagree with an observation.
#[tactic(auto, using(std::proofs::lemmas::Int::ints, crate::proofs::SideLaws::whole_residual))]
fn disagreement(directions: &[i64], orientations: &[i64], obs: &Obs, turn: i8) -> i128
    requires { IsObs (length orientations.now) (length directions.now) obs.now }
    ensures { result
        ≡ residual (choice_of 1 directions.now orientations.now) (turned_by obs.now turn) }
{
    let direction = directions[obs.target as usize];
    let orientation = orientations[obs.set as usize];
    less_both(direction, orientation, unrolled(obs.value, turn))
}

/// Whether a number is from half a circle back up to, not including, half a circle on.
fn is_nearest(number: i128) -> bool
    ensures { IsTrue result ↔ IsNearest number }
{
    -HALF_TURN <= number && number < HALF_TURN
}

/// Whether each observation has the full turns that are nearest to these angles.
fn each_is_nearest(
    station: &Station,
    turns: &[i8],
    directions: &[i64],
    orientations: &[i64],
) -> bool
    requires each { length turns.now ≡ length station.now.obs }
    requires each_target { length directions.now ≡ length station.now.targets }
    requires each_set { length orientations.now ≡ length station.now.sets }
    requires turns { All (IsWithin LARGEST_TURN) turns.now }
    ensures { IsTrue result
        ↔ All (λ r. IsNearest (residual (choice_of 1 directions.now orientations.now) r))
        (observed_with station.now turns.now) }
{
    let obs = station.obs();
    for place in 0..obs.len() {
        if !is_nearest(disagreement(directions, orientations, &obs[place], turns[place])) {
            return false;
        }
    }
    true
}

/// Carries a mark along an observation from the one end that has one to the other; false where the
/// angles of these ends then don't agree exactly with it.
fn is_carried(
    marks: &mut [bool; MOST_NODES],
    directions: &[i64],
    orientations: &[i64],
    obs: &Obs,
    turn: i8,
) -> bool
    requires sets { length orientations.now ≤ MOST_SETS }
    requires targets { length directions.now ≤ MOST_TARGETS }
    requires obs { IsObs (length orientations.now) (length directions.now) obs.now }
    ensures marked { MarksAlong (length orientations.now) (length directions.now) marks.old
        marks.new obs.now }
    ensures agrees { IsTrue result
        ↔ AgreesIfItCarries (length orientations.now) marks.old
        (choice_of 1 directions.now orientations.now) (turned_by obs.now turn) }
{
    let set = obs.set as usize;
    let target = orientations.len() + obs.target as usize;
    if marks[set] == marks[target] {
        return true;
    }
    marks[set] = true;
    marks[target] = true;
    disagreement(directions, orientations, obs, turn) == 0
}

/// Whether the observations carry angles to all sets and targets, and those that do agree exactly
/// with these angles.
fn are_carried(station: &Station, turns: &[i8], directions: &[i64], orientations: &[i64]) -> bool
    requires each { length turns.now ≡ length station.now.obs }
    requires each_target { length directions.now ≡ length station.now.targets }
    requires each_set { length orientations.now ≡ length station.now.sets }
    requires turns { All (IsWithin LARGEST_TURN) turns.now }
    ensures { IsTrue result
        ↔ (AreReached station.now × AgreeWhereCarried station.now turns.now
        (choice_of 1 directions.now orientations.now)) }
{
    let obs = station.obs();
    let sets = station.sets().len();
    let nodes = sets + station.targets().len();
    let mut marks = [false; MOST_NODES];
    marks[sets] = true;
    for step in 0..nodes * obs.len() {
        let place = step % obs.len();
        if place == 0 && are_marked(&marks, nodes) {
            return true;
        }
        if !is_carried(
            &mut marks,
            directions,
            orientations,
            &obs[place],
            turns[place],
        ) {
            return false;
        }
    }
    are_marked(&marks, nodes)
}

/// Whether the full turns of a station's observations are nearest to these angles, in whole half
/// units, which the observations carry to all sets and targets.
pub(crate) fn are_nearest(
    station: &Station,
    turns: &[i8],
    directions: &[i64],
    orientations: &[i64],
) -> bool
    requires each { length turns.now ≡ length station.now.obs }
    requires turns { All (IsWithin LARGEST_TURN) turns.now }
    ensures { IsTrue result
        ↔ AreNearestToBoth station.now turns.now directions.now orientations.now }
{
    if directions.len() != station.targets().len() || orientations.len() != station.sets().len() {
        return false;
    }
    if !each_is_nearest(station, turns, directions, orientations) {
        return false;
    }
    are_carried(station, turns, directions, orientations)
}
