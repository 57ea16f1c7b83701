//! A reader, and the name of the file that it reads.

use station_report::Head;

/// A reader, and the name of the file that it reads, as the line of its digest has it.
#[derive(Drop)]
pub struct NamedReader<'a, R> {
    pub name: &'a [u8],
    pub reader: R,
}

/// A reader of a field file, and what stands in the head of its report: the path there names the
/// file, as the line of its digest has it.
#[derive(Drop)]
pub struct HeadedReader<'a, 'n, R> {
    pub head: Head<'a, 'n>,
    pub reader: R,
}
