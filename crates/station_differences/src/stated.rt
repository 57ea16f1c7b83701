//! The targets of a station of which a table states a direction.
ghost use Rattle.std.specs.Prelude.{◌≡◌, IfOk, Some, map, pos};
ghost use Rattle.std.specs.Option.{unwrap_or};
ghost use Rattle.station_differences.specs.StatedTargets as spec;

use std::alloc::{AllocError, Global};

/// One rotation makes any single difference 0, so fewer say nothing.
const FEWEST_STATED: usize = 2;

/// Whether a table states enough directions of a station's targets for differences: one of each
/// target, or two or more.
pub fn is_enough(stated: &[Option<i64>]) -> bool
    ensures { result ≡ spec.is_enough stated.now }
{
    stated.iter().all(|direction| direction.is_some())
        || stated
            .iter()
            .filter(|direction| direction.is_some())
            .count()
            >= FEWEST_STATED
}

/// The places of the stated targets among all.
pub(crate) fn stated_places(alloc: Global, stated: &[Option<i64>]) -> Result<Vec<usize>, AllocError>
    ensures { IfOk result (λ places. places.items ≡ spec.stated_places stated.now) }
{
    stated
        .iter()
        .enumerate()
        .filter_map(|(place, direction)| direction.map(|_| place))
        .collect(alloc)
}

/// A direction at each place: 0 where none is stated.
pub(crate) fn at_each_place(alloc: Global, stated: &[Option<i64>]) -> Result<Vec<i64>, AllocError>
    ensures { IfOk result (λ directions.
        directions.items ≡ map (λ direction. unwrap_or direction (pos 0)) stated.now) }
{
    stated
        .iter()
        .map(|direction| direction.unwrap_or(0))
        .collect(alloc)
}

/// All directions of a table that lacks none.
pub(crate) fn lacking_none(alloc: Global, stated: &[i64]) -> Result<Vec<Option<i64>>, AllocError>
    ensures { IfOk result (λ directions. directions.items ≡ map Some stated.now) }
{
    stated
        .iter()
        .map(|direction| Some(*direction))
        .collect(alloc)
}
