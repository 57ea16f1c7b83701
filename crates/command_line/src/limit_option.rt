//! The options that state a limit.

ghost use Rattle.std.specs.Prelude.{◌≡◌};
ghost use Rattle.command_line.specs.LimitOptions.{option_largest, option_limits, option_name};
ghost use Rattle.command_line.specs.LimitOptions.{option_unit};

use crate::arguments::{RESIDUAL, TWO_C, TWO_I, WITHIN};
use crate::help;
use adjust_kernel::LARGEST_RESIDUAL_LIMIT;
use direction_table::LARGEST_WITHIN;
use limit_texts::LimitUnit;
use station_book::LARGEST_LIMIT;

/// An option that states a limit.
#[derive(Clone, Copy)]
pub(crate) enum LimitOption {
    /// The limit of 2c.
    TwoC,

    /// The limit of 2i.
    TwoI,

    /// The limit of residuals.
    Residual,

    /// The limit of a comparison.
    Within,
}

impl LimitOption {
    /// The name that follows its two hyphens.
    pub(crate) fn name(self) -> &'static str
        ensures { result.now ≡ option_name self }
    {
        match self {
            LimitOption::TwoC => TWO_C,
            LimitOption::TwoI => TWO_I,
            LimitOption::Residual => RESIDUAL,
            LimitOption::Within => WITHIN,
        }
    }

    /// The unit in which its limit is counted.
    pub(crate) fn unit(self) -> LimitUnit
        ensures { result ≡ option_unit self }
    {
        match self {
            LimitOption::TwoC | LimitOption::TwoI => LimitUnit::Hundredth,
            LimitOption::Residual => LimitUnit::HalfUnit,
            LimitOption::Within => LimitUnit::Thousandth,
        }
    }

    /// The largest limit, in its unit.
    pub(crate) fn largest(self) -> u32
        ensures { result ≡ option_largest self }
    {
        match self {
            LimitOption::TwoC | LimitOption::TwoI => LARGEST_LIMIT,
            LimitOption::Residual => LARGEST_RESIDUAL_LIMIT,
            LimitOption::Within => LARGEST_WITHIN,
        }
    }

    /// What may be stated.
    pub(crate) fn stated_as(self) -> &'static str
        ensures { result.now ≡ option_limits self }
    {
        match self {
            LimitOption::TwoC | LimitOption::TwoI => help::FACE_LIMITS,
            LimitOption::Residual => help::RESIDUAL_LIMITS,
            LimitOption::Within => help::TABLE_LIMITS,
        }
    }
}

/// The options that state a limit, in the order in which their texts are looked at.
pub(crate) const LIMIT_OPTIONS: [LimitOption; 4] = [
    LimitOption::TwoC,
    LimitOption::TwoI,
    LimitOption::Residual,
    LimitOption::Within,
];
