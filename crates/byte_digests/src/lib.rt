//! The digest of the bytes that a reader gave.
//!
//! A [`Digesting`] is a source over a source. It gives what that gives, and feeds it to SHA-256, so
//! that its first history is kept as a digest: whoever proves of any reader what it did with the
//! bytes that came has proved it of the bytes that have this digest.
#![tactic(auto)]

mod digest_line;
mod digesting;
pub mod laws;
mod name_text;
mod put_line;

pub use digest_line::write_digest_line;
pub use digesting::Digesting;
pub use name_text::push_name;
pub use put_line::{MOST_BESIDE_NAME, put_digest_line};
