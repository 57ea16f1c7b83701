//! The names of stations and targets.
//!
//! A name is a value of fixed size: its bytes, followed by zeros. So it is copied, compared and
//! hashed without memory, and contracts see it as the list of its bytes.

ghost use Rattle.std.specs.Prelude.{◌≡◌, ◌<◌, ◌≤◌, ℕ, List, length, drop, take, ◌↔◌, IfSome};
ghost use Rattle.std.specs.Prelude.{IfNone, IsTrue};
ghost use Rattle.std.specs.Str.{bytes_eq};
ghost use Rattle.adjust_kernel.specs.Names.{IsName, padded};

mod ends;

use self::ends::{EIGHT, end_of_eight, end_of_sixteen};
use crate::bounds::LONGEST_NAME;
use std::fmt;
use std::hash::{Hash, Hasher};
use std::marker::Model;

/// The first byte that a name may hold, a blank.
pub const FIRST_PRINTABLE: u8 = 0x20;

/// The last byte that a name may hold, a tilde.
pub const LAST_PRINTABLE: u8 = 0x7e;

/// The name of a station or of a target: 1 to 16 bytes from the blank to the tilde.
#[derive(Clone, Copy, Debug, PartialEq, Eq, Drop)]
pub struct Name {
    bytes: [u8; LONGEST_NAME],
    len: usize,
}

impl Model for Name {
    ghost use Rattle.std.specs.Prelude.{◌≡◌, ℕ, List, length, take};
    ghost use Rattle.adjust_kernel.specs.Names.{IsName, padded};

    ghost Value = { List ℕ };

    ghost view = { λ n. take n.len n.bytes };

    ghost invariant = { λ n. (n.bytes ≡ padded (take n.len n.bytes))
        × (n.len ≡ length (take n.len n.bytes))
        × IsName (take n.len n.bytes) };

    ghost inverse = { λ xs. record { bytes = padded xs; len = length xs } };
}

impl Name {
    /// The name of these bytes, if they are 1 to 16 and each is printable.
    pub fn new(bytes: &[u8]) -> Option<Name>
        ensures some { IfSome result (λ name. name ≡ bytes.now) }
        ensures valid { IfSome result IsName }
        ensures none { IfNone result (IsName bytes.now → ⊥) }
    {
        if !is_name(bytes) {
            return None;
        }
        Some(Name::from_valid(bytes))
    }

    /// The name of these bytes, which are known to be those of a name: nothing is tested.
    pub fn from_valid(bytes: &[u8]) -> Name
        requires { IsName bytes.now }
        ensures { result ≡ bytes.now }
    {
        let mut kept = [0; LONGEST_NAME];
        kept[..bytes.len()].copy_from_slice(bytes);
        Name {
            bytes: kept,
            len: bytes.len(),
        }
    }

    /// The name that some bytes have from this place on, which is known to be one: nothing is
    /// tested. Where there are eight or sixteen of them, they are moved as one number.
    #[inline(always)]
    pub fn of_end(bytes: &[u8], from: usize) -> Name
        requires { IsName (drop from bytes.now) }
        ensures { result ≡ drop from bytes.now }
    {
        let kept = match bytes.len() {
            EIGHT => end_of_eight(bytes, from),
            LONGEST_NAME => end_of_sixteen(bytes, from),
            _ => return Name::from_valid(&bytes[from..]),
        };
        Name {
            bytes: kept,
            len: bytes.len() - from,
        }
    }

    /// Its bytes.
    pub fn bytes(&self) -> &[u8]
        ensures value { result.now ≡ self.now }
        ensures valid { IsName self.now }
    {
        &self.bytes[..self.len]
    }

    /// Its bytes, and zeros after them, as many as the longest name has; and how many are its own.
    /// So they are copied without a look at how many that is.
    #[inline(always)]
    pub fn padded(&self) -> (&[u8; LONGEST_NAME], usize)
        ensures bytes { result.0.now ≡ padded self.now }
        ensures own { take result.1 result.0.now ≡ self.now }
        ensures length { result.1 ≡ length self.now }
        ensures short { result.1 ≤ LONGEST_NAME }
    {
        (&self.bytes, self.len)
    }

    /// The rules of names, which each name keeps: for a proof that holds a name and needs them. It
    /// does nothing when the program runs.
    #[inline(always)]
    pub fn recall(&self)
        ensures { IsName self.now }
    {
        let _ = &self.len;
    }

    /// Whether another name is this one: all that is kept of both is compared at once, for no byte
    /// of a name is 0.
    #[inline(always)]
    pub fn is_same(&self, other: &Name) -> bool
        ensures value { result ≡ bytes_eq self.now other.now }
        ensures same { IsTrue result ↔ (self.now ≡ other.now) }
    {
        self.bytes == other.bytes
    }
}

impl Hash for Name {
    ghost use Rattle.std.specs.Cmp.Rules.{hashing};
    ghost use Rattle.std.specs.Prelude.{[], ◌∷◌};
    ghost use Rattle.adjust_kernel.specs.Names.{padded};
    ghost use Rattle.std.proofs.Common.{rules};

    ghost hash_input = { λ name. padded name ∷ [] };

    ghost respects_eq = { Prim.search (hashing, rules) };

    /// All that is kept of it is hashed at once, as `is_same` compares it.
    #[inline(always)]
    fn hash<H: Hasher>(&self, state: &mut H) {
        state.write(&self.bytes);
    }
}

impl fmt::Display for Name {
    ghost use Rattle.std.specs.Prelude.{Some};
    ghost use Rattle.std.specs.Fmt.{padded as filled};

    ghost output = { λ name. Some name };

    ghost styled_output = { λ name style. Some (filled style name) };

    /// Its bytes, which are ASCII, as text, cut and filled as the hole asks.
    fn fmt<W: fmt::Write>(&self, f: &mut fmt::Formatter<W>) -> fmt::Result {
        f.pad(std::str::from_utf8(self.bytes()).map_err(|_| fmt::Error)?)
    }
}

/// Whether these are the bytes of a name.
fn is_name(bytes: &[u8]) -> bool
    ensures { IsTrue result ↔ IsName bytes.now }
{
    !bytes.is_empty()
        && bytes.len() <= LONGEST_NAME
        && bytes
            .iter()
            .all(|byte| (FIRST_PRINTABLE..=LAST_PRINTABLE).contains(byte))
}
