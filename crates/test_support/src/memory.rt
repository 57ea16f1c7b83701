//! All memory, held.

use std::alloc::Global;

/// How many blocks of memory are held at most.
pub const BLOCKS: usize = 60_000;

/// How many sizes of blocks are tried, each half of the one before: from 2^40 bytes down to 16.
const SIZES: usize = 37;

/// The largest size, in bytes.
const LARGEST: usize = 1 << 40;

/// Holds all memory that there is.
///
/// `rt test` alone can run a test over it: `rt try --test` watches over memory itself, and ends the
/// test in place of refusing.
pub fn hoard(alloc: Global) -> Vec<Vec<u8>> {
    let mut hoard: Vec<Vec<u8>> = Vec::new(alloc);
    if hoard.reserve(BLOCKS).is_err() {
        return hoard;
    }
    let mut size = LARGEST;
    for _ in 0..SIZES {
        for _ in 0..BLOCKS {
            match Vec::<u8>::with_capacity(alloc, size) {
                Ok(block) => {
                    if hoard.push(block).is_err() {
                        return hoard;
                    }
                }
                Err(_) => break,
            }
        }
        size /= 2;
    }
    hoard
}

/// Holds all memory that there is, but for a spare block that it gives back at the end.
pub fn hoard_of_all_but(alloc: Global, spare: Vec<u8>) -> Vec<Vec<u8>> {
    let held = hoard(alloc);
    drop(spare);
    held
}
