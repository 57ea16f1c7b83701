//! A field file with codes put in.

use set_marks::Marked;

/// A field file, and the code lines that are put into it.
#[derive(Drop)]
pub struct MarkedFile {
    /// The bytes of the field file.
    pub bytes: Vec<u8>,
    /// The code lines, and what is told of the stations.
    pub marked: Marked,
}
