//! Numbers, taken together one after the other.
ghost use Rattle.std.specs.Prelude.{◌≡◌, ◌≤◌, ◌*◌, ◌^◌, pos, ◌+ℤ◌, ◌-ℤ◌};
ghost use Rattle.std.specs.Int.{int_max, int_min};
ghost use Rattle.adjust_kernel.specs.Within.{IsWithin};
ghost use Rattle.adjust_kernel.specs.declared.bounds.TheConstants.{MOST_ROWS};
ghost use Rattle.station_report.specs.FaceMeans.{rounded_over};

/// What some numbers have together.
#[derive(Clone, Copy, Debug, Drop)]
pub struct Together {
    /// Their sum.
    pub sum: i64,
    /// The least of them.
    pub least: i32,
    /// The greatest of them.
    pub greatest: i32,
}

impl Together {
    /// Nothing yet, where this number is the first to come.
    pub fn before(first: i32) -> Together
        ensures sum { result.sum ≡ pos 0 }
        ensures least { result.least ≡ first }
        ensures greatest { result.greatest ≡ first }
    {
        Together {
            sum: 0,
            least: first,
            greatest: first,
        }
    }

    /// These and one more.
    pub fn with(self, number: i32) -> Together
        requires { IsWithin (pos (2 ^ 31 * MOST_ROWS)) self.sum }
        ensures sum { result.sum ≡ self.sum +ℤ number }
        ensures least { result.least ≡ int_min self.least number }
        ensures greatest { result.greatest ≡ int_max self.greatest number }
    {
        Together {
            sum: self.sum + i64::from(number),
            least: self.least.min(number),
            greatest: self.greatest.max(number),
        }
    }

    /// The sum over a count, rounded, the middle of two upwards.
    pub fn over(self, count: u32) -> i64
        requires bound { IsWithin (pos (2 ^ 31 * MOST_ROWS)) self.sum }
        requires some { 1 ≤ count }
        ensures { result ≡ rounded_over self.sum count }
    {
        let count = i64::from(count);
        (2 * self.sum + count).div_euclid(2 * count)
    }

    /// The greatest less the least.
    pub fn spread(self) -> i64
        ensures { result ≡ self.greatest -ℤ self.least }
    {
        i64::from(self.greatest) - i64::from(self.least)
    }
}
