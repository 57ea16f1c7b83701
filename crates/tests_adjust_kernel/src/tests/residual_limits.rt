//! The largest limit of residuals.

use adjust_kernel::ResidualLimit;

#[test]
fn a_limit_is_at_most_2000_half_units(rt: HostRuntime) {
    assert!(rt; ResidualLimit::new(2_001).is_none());
    let limit = ResidualLimit::new(2_000).expect(&rt, "a limit");
    assert_eq!(rt; limit.half_units(), 2_000);
}
