//! How the words of a block lie in its line.

/// How many words a line holds and how wide they are: all that is needed to see them, without
/// reading the line again.
// Both of one size, so that there is no padding: of padding a copy is made in pieces that overlap,
// and what loads the shape next waits for them.
#[derive(Clone, Copy, Debug, PartialEq, Eq)]
pub struct Shape {
    /// How many bytes the content of each word has.
    pub(crate) width: usize,
    /// How many words there are.
    pub(crate) count: usize,
}
