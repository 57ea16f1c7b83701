//! What a block is to a book.

ghost use Rattle.std.specs.Prelude.{◌≡◌};
ghost use Rattle.gsi_word.specs.BlockViews.{block_of};
ghost use Rattle.station_book.specs.Blocks.{code_role, role_of};

use gsi_word::{Block, CODE_NUMBER, POINT_NUMBER};

/// What a block is to a book.
#[derive(Clone, Copy, Debug, PartialEq, Eq)]
pub enum Role {
    /// Code 10: a station begins.
    Station,
    /// Code 20: a set begins.
    Set,
    /// Code 30: the set ends.
    Close,
    /// It begins with a point number.
    Measurement,
    /// Any other code.
    Other,
}

/// What a code means.
fn code_role(name: &[u8]) -> Role
    ensures { result ≡ code_role name.now }
{
    match name {
        b"10" => Role::Station,
        b"20" => Role::Set,
        b"30" => Role::Close,
        _ => Role::Other,
    }
}

/// What a block is.
#[tactic(auto, unfolding(crate::specs::Blocks::role_of))]
pub fn role_of(block: &Block<'_>) -> Role
    ensures { result ≡ role_of (block_of block.now) }
{
    let first = block.first();
    match first.index() {
        POINT_NUMBER => Role::Measurement,
        CODE_NUMBER => code_role(first.name()),
        _ => Role::Other,
    }
}
