//! Numbers at the edges of words and of the width; the values are from Python's integers.

use std::process::Abort;
use std::test::Fail;
use wide_number::{Wide, quotient};

/// 2^64 - 1.
const LARGEST: u64 = u64::MAX;

/// The number with these digits of 32 bits, the highest first.
fn wide(rt: &impl Abort, digits: &[u64]) -> Wide {
    let mut number = Wide::zero();
    for digit in digits {
        number = number
            .checked_mul_add(4_294_967_296, *digit)
            .expect(rt, "a number that fits");
    }
    number
}

/// 2^832 - 1, the largest number.
fn largest(rt: &impl Abort) -> Wide {
    wide(rt, &[0xffff_ffff; 26])
}

/// The product, where it fits.
fn product(rt: &impl Abort, number: &Wide, factor: u64) -> Wide {
    let sum = number.checked_mul_add(factor, 0);
    let _fits = sum.expect(rt, "a product that fits");
    number.times(factor)
}

/// The difference, where it is none below 0.
fn difference(rt: &impl Abort, number: &Wide, by: &Wide) -> Wide {
    assert!(rt; !number.is_below(by));
    let mut rest = product(rt, number, 1);
    assert!(rt; !rest.is_below(by));
    rest.subtract(by);
    rest
}

/// How many times the unit goes into the number, below this bound.
fn times_in(rt: &impl Abort, number: &Wide, unit: &Wide, bound: u64) -> u64 {
    let most = unit
        .checked_mul_add(bound, 0)
        .expect(rt, "a bound that fits");
    assert!(rt; number.is_below(&most));
    quotient(number, unit, bound)
}

#[test]
fn products_carry_from_word_to_word(rt: HostRuntime) -> Result<(), Fail> {
    // The powers of 2^64 - 1 from the first to the fifth.
    let powers: [&[u64]; 5] = [
        &[0xffffffff, 0xffffffff],
        &[0xffffffff, 0xfffffffe, 0x00000000, 0x00000001],
        &[
            0xffffffff, 0xfffffffd, 0x00000000, 0x00000002, 0xffffffff, 0xffffffff,
        ],
        &[
            0xffffffff, 0xfffffffc, 0x00000000, 0x00000005, 0xffffffff, 0xfffffffc, 0x00000000,
            0x00000001,
        ],
        &[
            0xffffffff, 0xfffffffb, 0x00000000, 0x00000009, 0xffffffff, 0xfffffff6, 0x00000000,
            0x00000004, 0xffffffff, 0xffffffff,
        ],
    ];
    let mut power = Wide::new(1);
    for digits in powers {
        power = product(&rt, &power, LARGEST);
        assert!(rt; power.is_same(&wide(&rt, digits)));
    }
    let sum = Wide::new(LARGEST).checked_mul_add(LARGEST, LARGEST);
    let sum = sum.expect(&rt, "a number that fits");
    // (2^64 - 1) * 2^64.
    assert!(rt; sum.is_same(&wide(&rt, &[0xffffffff, 0xffffffff, 0x00000000, 0x00000000])));
    let sum = product(&rt, &product(&rt, &sum, 1 << 32), 1 << 32);
    assert!(rt;
        sum.is_same(&wide(
            &rt,
            &[
                0xffffffff, 0xffffffff, 0x00000000, 0x00000000, 0x00000000, 0x00000000
            ]
        ))
    );
    Ok(())
}

#[test]
fn what_does_not_fit_is_refused(rt: HostRuntime) -> Result<(), Fail> {
    let largest = largest(&rt);
    let same = largest.checked_mul_add(1, 0).expect(&rt, "the same");
    assert!(rt; same.is_same(&largest));
    for (factor, addend) in [(1, 1), (1, LARGEST), (2, 0), (LARGEST, LARGEST)] {
        assert!(rt; largest.checked_mul_add(factor, addend).is_none());
    }
    assert!(rt;
        largest
            .checked_mul_add(0, LARGEST)
            .expect(&rt, "a word")
            .is_same(&Wide::new(LARGEST))
    );
    // (2^832 - 1) / 5 is a whole number, and 5 of it fit just so.
    let fifth = wide(
        &rt,
        &[
            0x33333333, 0x33333333, 0x33333333, 0x33333333, 0x33333333, 0x33333333, 0x33333333,
            0x33333333, 0x33333333, 0x33333333, 0x33333333, 0x33333333, 0x33333333, 0x33333333,
            0x33333333, 0x33333333, 0x33333333, 0x33333333, 0x33333333, 0x33333333, 0x33333333,
            0x33333333, 0x33333333, 0x33333333, 0x33333333, 0x33333333,
        ],
    );
    assert!(rt;
        fifth
            .checked_mul_add(5, 0)
            .expect(&rt, "the largest")
            .is_same(&largest)
    );
    assert!(rt; fifth.checked_mul_add(5, 1).is_none());
    Ok(())
}

#[test]
fn differences_borrow_from_word_to_word(rt: HostRuntime) -> Result<(), Fail> {
    let rest = difference(&rt, &largest(&rt), &Wide::new(LARGEST));
    assert!(rt;
        rest.is_same(&wide(
            &rt,
            &[
                0xffffffff, 0xffffffff, 0xffffffff, 0xffffffff, 0xffffffff, 0xffffffff, 0xffffffff,
                0xffffffff, 0xffffffff, 0xffffffff, 0xffffffff, 0xffffffff, 0xffffffff, 0xffffffff,
                0xffffffff, 0xffffffff, 0xffffffff, 0xffffffff, 0xffffffff, 0xffffffff, 0xffffffff,
                0xffffffff, 0xffffffff, 0xffffffff, 0x00000000, 0x00000000
            ]
        ))
    );
    // 2^768 less 1.
    let power = wide(
        &rt,
        &[
            0x00000001, 0x00000000, 0x00000000, 0x00000000, 0x00000000, 0x00000000, 0x00000000,
            0x00000000, 0x00000000, 0x00000000, 0x00000000, 0x00000000, 0x00000000, 0x00000000,
            0x00000000, 0x00000000, 0x00000000, 0x00000000, 0x00000000, 0x00000000, 0x00000000,
            0x00000000, 0x00000000, 0x00000000, 0x00000000,
        ],
    );
    let power = difference(&rt, &power, &Wide::new(1));
    assert!(rt; power.is_same(&wide(&rt, &[0xffff_ffff; 24])));
    let none = difference(&rt, &largest(&rt), &largest(&rt));
    assert!(rt; none.is_same(&Wide::zero()));
    Ok(())
}

#[test]
fn the_highest_words_that_differ_decide(rt: HostRuntime) -> Result<(), Fail> {
    // Each is below all later ones.
    let numbers: [&[u64]; 7] = [
        &[],
        &[1],
        &[0xffffffff, 0xffffffff],
        &[0x00000001, 0x00000000, 0x00000000],
        &[0xffffffff, 0xffffffff, 0x00000000, 0x00000000],
        &[
            0xffffffff, 0xffffffff, 0xffffffff, 0xffffffff, 0xffffffff, 0xffffffff, 0xffffffff,
            0xffffffff, 0xffffffff, 0xffffffff, 0xffffffff, 0xffffffff, 0xffffffff, 0xffffffff,
            0xffffffff, 0xffffffff, 0xffffffff, 0xffffffff, 0xffffffff, 0xffffffff, 0xffffffff,
            0xffffffff, 0xffffffff, 0xffffffff,
        ],
        &[
            0x00000001, 0x00000000, 0x00000000, 0x00000000, 0x00000000, 0x00000000, 0x00000000,
            0x00000000, 0x00000000, 0x00000000, 0x00000000, 0x00000000, 0x00000000, 0x00000000,
            0x00000000, 0x00000000, 0x00000000, 0x00000000, 0x00000000, 0x00000000, 0x00000000,
            0x00000000, 0x00000000, 0x00000000, 0x00000000,
        ],
    ];
    for below in 0..numbers.len() {
        for place in 0..numbers.len() {
            let a = wide(&rt, numbers[below]);
            let b = wide(&rt, numbers[place]);
            assert_eq!(rt; a.is_below(&b), below < place);
            assert_eq!(rt; a.is_same(&b), below == place);
        }
    }
    Ok(())
}

#[test]
fn quotients_are_cut(rt: HostRuntime) -> Result<(), Fail> {
    let unit = product(&rt, &Wide::new(LARGEST), LARGEST);
    for (times, more, expected) in [
        (0, 0, 0),
        (0, LARGEST, 0),
        (5, 0, 5),
        (5, 1, 5),
        (999, 9, 999),
    ] {
        let number = unit.checked_mul_add(times, more).expect(&rt, "a number");
        assert_eq!(rt; times_in(&rt, &number, &unit, 1_000), expected);
    }
    let below = difference(&rt, &product(&rt, &unit, 7), &Wide::new(1));
    assert_eq!(rt; times_in(&rt, &below, &unit, 7), 6);
    assert_eq!(rt;
        times_in(&rt, &Wide::new(LARGEST), &Wide::new(2), LARGEST),
        LARGEST / 2
    );
    Ok(())
}

#[test]
fn quotients_are_found_at_every_length(rt: HostRuntime) -> Result<(), Fail> {
    // Units of 1 to 12 words, whose highest word holds few bits or many, and whose others hold none
    // or all: the highest words alone then tell as much as 3 too many.
    for (first, other) in [
        (1, 0),
        (1, LARGEST),
        (4_294_967_296, LARGEST),
        (LARGEST, LARGEST),
    ] {
        let mut unit = Wide::new(first);
        for _ in 0..12 {
            for times in [0, 1, 2, 999, 8_589_934_592] {
                let number = product(&rt, &unit, times);
                assert_eq!(rt; times_in(&rt, &number, &unit, times + 1), times);
                assert_eq!(rt; times_in(&rt, &number, &unit, 17_179_869_184), times);
                let number = difference(&rt, &product(&rt, &unit, times + 1), &Wide::new(1));
                assert_eq!(rt; times_in(&rt, &number, &unit, times + 1), times);
                assert_eq!(rt; times_in(&rt, &number, &unit, 17_179_869_184), times);
            }
            let shifted = product(&rt, &product(&rt, &unit, 1 << 32), 1 << 32);
            unit = shifted
                .checked_mul_add(1, other)
                .expect(&rt, "a unit that fits");
        }
    }
    Ok(())
}
