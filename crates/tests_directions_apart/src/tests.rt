//! Directions worked by hand and in exact fractions.

use adjust_kernel::{CIRCLE, PARTS};
use directions_apart::{MOST_OFF, apart_of, rounded};
use exact_adjustment::Adjustment;
use std::alloc::Global;
use std::process::Abort;
use std::test::Fail;
use wide_number::Wide;

/// Half units in B's direction of station S1, 50.00003 gon. A's is 0.
const B: u64 = 10_000_006;

/// 2^786: near the largest denominator there is.
fn large(rt: &impl Abort) -> Wide {
    let mut number = Wide::new(1 << 42);
    for _ in 0..12 {
        number = number
            .checked_mul_add(1 << 62, 0)
            .expect(rt, "a number that fits");
    }
    number
}

/// A's direction 0, then a base times each factor, and the addend: over the base and some more.
fn adjustment_of(
    rt: &impl Abort,
    alloc: Global,
    base: &Wide,
    more: u64,
    others: &[(u64, u64)],
) -> Result<Adjustment, Fail> {
    let denominator = base.checked_mul_add(1, more).expect(rt, "a denominator");
    let mut directions = Vec::new(alloc);
    directions.push(Wide::zero())?;
    for (factor, addend) in others {
        let direction = base
            .checked_mul_add(*factor, *addend)
            .expect(rt, "a direction");
        directions.push(direction)?;
    }
    let adjustment = Adjustment::new(denominator, directions, Vec::new(alloc), Vec::new(alloc));
    Ok(adjustment.expect(rt, "an adjustment"))
}

/// How far stated directions in units of 0.000000001 gon are apart.
fn apart(
    rt: &impl Abort,
    alloc: Global,
    adjustment: &Adjustment,
    stated: &[i64],
) -> Result<u32, Fail> {
    let mut parts = Vec::new(alloc);
    for direction in stated {
        parts.push(direction.saturating_mul(PARTS as i64))?;
    }
    Ok(apart_in_parts(rt, adjustment, &parts))
}

/// How far stated directions in parts are apart.
fn apart_in_parts(rt: &impl Abort, adjustment: &Adjustment, stated: &[i64]) -> u32 {
    assert_eq!(rt; stated.len(), adjustment.directions().len());
    apart_of(adjustment, stated, 0)
}

fn rounded_at(rt: &impl Abort, adjustment: &Adjustment, target: usize, step: u32) -> u64 {
    assert!(rt; target < adjustment.directions().len());
    assert!(rt; step > 0);
    assert_eq!(rt; CIRCLE % u64::from(step), 0);
    rounded(adjustment, target, step)
}

#[test]
fn half_the_spread_is_rounded_up(rt: HostRuntime) -> Result<(), Fail> {
    // Stated directions in units of 0.000000001 gon, and 0.000001 gon.
    let cases = [
        ([0, 50_000_030_000], 0),
        // rotated
        ([100_000_100_000, 150_000_130_000], 0),
        ([100_000_100_000, 150_000_100_000], 15),
        ([100_000_100_000, 150_000_099_999], 16),
        // across 0, and by full circles
        ([399_999_990_000, 50_000_020_000], 0),
        ([-10_000, 50_000_020_000], 0),
        ([-399_999_999_999, -349_999_969_999], 0),
        ([0, 50_000_029_999], 1),
        // half a circle apart, the most there is
        ([0, 250_000_030_000], 100_000_000),
    ];
    let adjustment = adjustment_of(&rt, rt.alloc(), &Wide::new(1), 0, &[(B, 0)])?;
    for (stated, want) in cases {
        assert_eq!(rt; apart(&rt, rt.alloc(), &adjustment, &stated)?, want);
    }
    Ok(())
}

#[test]
fn what_numbers_are_off_counts(rt: HostRuntime) -> Result<(), Fail> {
    // B's direction is 50.00003 gon, 4,050,002,430,000 parts; a unit has 81,000.
    let cases = [
        ([0, 4_050_002_430_000], 0, 0),
        ([0, 4_050_002_430_000], 1, 1),
        ([0, 4_050_002_430_000], 90, 1),
        ([0, 4_050_002_430_000], MOST_OFF, 1),
        ([0, 4_050_002_268_000], 0, 1),
        ([0, 4_050_002_268_000], 1, 2),
        ([0, 4_050_002_268_180], 90, 1),
        ([0, 4_050_002_268_179], 90, 2),
        ([0, 20_250_002_430_000], 90, 100_000_001),
    ];
    let adjustment = adjustment_of(&rt, rt.alloc(), &Wide::new(1), 0, &[(B, 0)])?;
    for (stated, off, want) in cases {
        assert_eq!(rt; stated.len(), adjustment.directions().len());
        assert!(rt; off <= MOST_OFF);
        assert_eq!(rt; apart_of(&adjustment, &stated, off), want);
    }
    Ok(())
}

#[test]
fn a_part_of_a_stated_direction_counts(rt: HostRuntime) -> Result<(), Fail> {
    // B's direction is 50.00003 gon, 4,050,002,430,000 parts; two units are 162,000.
    let cases = [
        ([0, 4_050_002_430_000], 0),
        ([0, 4_050_002_429_999], 1),
        ([0, 4_050_002_268_000], 1),
        ([0, 4_050_002_267_999], 2),
        ([0, 4_050_002_592_000], 1),
        ([0, 4_050_002_592_001], 2),
        // the largest numbers
        ([i64::MIN, i64::MAX], 34_421_561),
        ([i64::MAX, i64::MAX], 25_000_015),
    ];
    let adjustment = adjustment_of(&rt, rt.alloc(), &Wide::new(1), 0, &[(B, 0)])?;
    for (stated, want) in cases {
        assert_eq!(rt; apart_in_parts(&rt, &adjustment, &stated), want);
    }
    Ok(())
}

#[test]
fn thirds_are_no_whole_numbers(rt: HostRuntime) -> Result<(), Fail> {
    // B's direction is 10,000,006 and 1/3 half units, 50.000031666.. gon.
    let adjustment = adjustment_of(&rt, rt.alloc(), &Wide::new(1), 2, &[(30_000_019, 0)])?;
    let cases = [
        (50_000_031_666, 1),
        (50_000_031_667, 1),
        (50_000_033_666, 1),
        (50_000_033_667, 2),
    ];
    for (stated, want) in cases {
        assert_eq!(rt; apart(&rt, rt.alloc(), &adjustment, &[0, stated])?, want);
    }
    let cases = [
        (10, 50_000_031_670),
        (100, 50_000_031_700),
        (1_000, 50_000_032_000),
        (10_000, 50_000_030_000),
        (4_000_000_000, 52_000_000_000),
    ];
    for (step, want) in cases {
        assert_eq!(rt; rounded_at(&rt, &adjustment, 1, step), want);
    }
    Ok(())
}

#[test]
fn a_part_of_a_large_denominator_counts(rt: HostRuntime) -> Result<(), Fail> {
    // B's direction is 50.00003 gon, or by next to nothing more or less.
    let base = large(&rt);
    let cases = [
        (0, 0, 50_000_028_000, 1),
        (0, 1, 50_000_028_000, 2),
        (1, 0, 50_000_028_000, 1),
        (0, 0, 50_000_032_000, 1),
        (0, 1, 50_000_032_000, 1),
        (1, 0, 50_000_032_000, 2),
    ];
    for (more, addend, stated, want) in cases {
        let adjustment = adjustment_of(&rt, rt.alloc(), &base, more, &[(B, addend)])?;
        assert_eq!(rt; apart(&rt, rt.alloc(), &adjustment, &[0, stated])?, want);
    }
    Ok(())
}

#[test]
fn the_middle_of_two_steps_goes_up(rt: HostRuntime) -> Result<(), Fail> {
    // What is added to the denominator, half units, the step, and units of 0.000000001 gon.
    let base = large(&rt);
    let cases = [
        (0, 10_000_010, 100_000, 50_000_100_000),
        (1, 10_000_010, 100_000, 50_000_000_000),
        (0, 10_000_010, 10_000, 50_000_050_000),
        (1, 10_000_010, 1, 50_000_050_000),
        // from the last step to 0
        (0, 79_999_999, 10_000, 0),
        (1, 79_999_999, 10_000, 399_999_990_000),
        (1, 79_999_999, 1_000, 399_999_995_000),
        (1, 80_000_000, 1, 0),
    ];
    for (more, half_units, step, want) in cases {
        let adjustment = adjustment_of(&rt, rt.alloc(), &base, more, &[(half_units, 0)])?;
        assert_eq!(rt; rounded_at(&rt, &adjustment, 0, step), 0);
        assert_eq!(rt; rounded_at(&rt, &adjustment, 1, step), want);
    }
    Ok(())
}

#[test]
fn a_hundred_targets_leave_the_widest_gap(rt: HostRuntime) -> Result<(), Fail> {
    // All directions are 0, and one is stated at every 4 gon: all but 4 gon are held.
    let adjustment = adjustment_of(&rt, rt.alloc(), &large(&rt), 0, &[(0, 0); 99])?;
    let mut stated = [0; 100];
    for target in 0..100 {
        stated[target] = 4_000_000_000 * target as i64;
    }
    assert_eq!(rt; apart(&rt, rt.alloc(), &adjustment, &stated)?, 198_000_000);
    Ok(())
}
