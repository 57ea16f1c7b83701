//! The options that state a number of single stations, or of each.

ghost use Rattle.std.specs.Prelude.{◌≡◌};
ghost use Rattle.command_line.specs.CountOptions.{count_is_not_in, count_largest, count_may_be};
ghost use Rattle.command_line.specs.CountOptions.{count_name};

use crate::arguments::{SETS, TARGETS};
use crate::help;
use adjust_kernel::{MOST_SETS, MOST_TARGETS};

/// An option that states a number of single stations, or of each.
#[derive(Clone, Copy)]
pub(crate) enum CountOption {
    /// How many sets were read to the end.
    Sets,

    /// How many targets they have.
    Targets,
}

impl CountOption {
    /// The name that follows its two hyphens.
    pub(crate) fn name(self) -> &'static str
        ensures { result.now ≡ count_name self }
    {
        match self {
            CountOption::Sets => SETS,
            CountOption::Targets => TARGETS,
        }
    }

    /// The largest number.
    pub(crate) fn largest(self) -> u32
        ensures { result ≡ count_largest self }
    {
        match self {
            CountOption::Sets => MOST_SETS as u32,
            CountOption::Targets => MOST_TARGETS as u32,
        }
    }

    /// What may be stated.
    pub(crate) fn stated_as(self) -> &'static str
        ensures { result.now ≡ count_may_be self }
    {
        match self {
            CountOption::Sets => help::SETS_NUMBERS,
            CountOption::Targets => help::TARGETS_NUMBERS,
        }
    }

    /// What is said of a number that is none of those.
    pub(crate) fn missed(self) -> &'static str
        ensures { result.now ≡ count_is_not_in self }
    {
        match self {
            CountOption::Sets => help::NOT_IN_SETS,
            CountOption::Targets => help::NOT_IN_TARGETS,
        }
    }
}
