//! The two tallies of the kernel, and one that gets no memory.

ghost use Rattle.std.specs.Prelude.{◌≡◌};

use adjust_kernel::{MOST_ROWS, Running, Scan, Tally};
use std::alloc::Global;
use std::process::Abort;
use std::test::Fail;
use test_support::hoard;

// Two residuals of set 0 that cancel, and one of set 1 that is 0.
fn tells_its_sums<T: Tally>(rt: &impl Abort, mut tally: T)
    requires { T.room tally ≡ MOST_ROWS }
{
    assert_eq!(rt; tally.room(), 4_000);
    tally.add(0, 0, 5);
    tally.add(0, 1, -5);
    tally.add(1, 1, 0);
    assert_eq!(rt; tally.room(), 3_997);
    assert_eq!(rt; [tally.target_sum(0), tally.target_sum(1)], [0, 0]);
    assert_eq!(rt; [tally.set_sum(0), tally.set_sum(1)], [5, -5]);
}

#[test]
fn running_sums_count_what_was_added(rt: HostRuntime) {
    tells_its_sums(&rt, Running::new());
}

#[test]
fn a_scan_counts_what_was_added(rt: HostRuntime) -> Result<(), Fail> {
    tells_its_sums(&rt, Scan::new(rt.alloc())?);
    Ok(())
}

#[test]
fn a_scan_without_memory_is_refused(rt: HostRuntime) {
    let held = hoard(rt.alloc());
    let is_refused = Scan::new(rt.alloc()).is_err();
    drop(held);
    assert!(rt; is_refused);
}
