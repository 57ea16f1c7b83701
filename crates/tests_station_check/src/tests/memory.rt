//! Refused memory: a call then answers so, and has written nothing.
//!
//! `rt test` runs it. `rt try --test` watches over memory itself, and ends the test in place of
//! refusing.

use super::files::{STATION, THREE_LINES, THREE_LINES_WORDS};
use byte_ends::{Held, Script};
use station_check::{Fault, write_words};
use std::alloc::Global;
use std::test::Fail;
use test_support::hoard_of_all_but;

/// How many blocks a hoard may hold.
const BLOCKS: usize = 60_000;

/// The bytes by which the memory that is left grows from try to try.
const STEP: usize = 64;

#[test]
fn refused_memory_is_answered_with_nothing_written(rt: HostRuntime) -> Result<(), Fail> {
    let gsi = &STATION[..THREE_LINES];
    let mut was_refused = false;
    for tries in 0..200usize {
        let mut out = Held::new(rt.alloc(), 1_000, 1_000, false)?;
        let spare = Vec::<u8>::with_capacity(rt.alloc(), STEP * tries)?;
        let hoard = hoard_of_all_but(rt.alloc(), spare);
        let answer = write_words(rt.alloc(), Script::new(gsi, 10, false), &mut out);
        drop(hoard);
        if answer == Err(Fault::Memory) {
            assert!(rt; out.bytes().is_empty());
            was_refused = true;
        } else {
            assert_eq!(rt; answer, Ok(3));
            assert_eq!(rt; out.bytes(), THREE_LINES_WORDS);
            assert!(rt; was_refused);
            return Ok(());
        }
    }
    assert!(rt; false, "refused however much memory there was");
    Ok(())
}
