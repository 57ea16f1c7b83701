//! The digest of a file, for a page.

ghost use Rattle.station_page.specs.Answers.{IsDigestOf};
ghost use Rattle.station_page.specs.HandedOut.{Shows};

use crate::hand_out::TOO_LITTLE_ROOM;
use byte_digests::{MOST_BESIDE_NAME, put_digest_line};
use sha2::{Digest, Sha256};
use station_check::ACCEPTED;

/// Hands out the line of a whole file's SHA-256 digest and of its name, as `sha256sum` prints it.
///
/// Answers 0, and 3 where `out` has too little room, which then stays as it is; 68 bytes and twice
/// those of the name are always enough.
#[unsafe(no_mangle)]
pub extern "C" fn station_page_digest(
    file: &[u8],
    name: &[u8],
    out: &mut [u8],
    written: &mut usize,
) -> u8
    ensures { Shows (IsDigestOf file.now name.now) out.old out.new written.new result }
{
    *written = 0;
    match put_digest_line(&Sha256::digest(file), name, out) {
        Some(length) => {
            *written = length;
            ACCEPTED
        }
        None => TOO_LITTLE_ROOM,
    }
}
