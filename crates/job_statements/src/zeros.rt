//! Names without the zeros before them.

ghost use Rattle.std.specs.Prelude.{◌≡◌};
ghost use Rattle.adjust_kernel.specs.Names.{IsName};
ghost use Rattle.gsi_word.specs.Names.{name_of};

use adjust_kernel::Name;

/// The name that these bytes are, without the zeros before it, at least one byte kept.
// It calls itself once for each zero, of which a name has at most 16.
#[tactic(auto, using(crate::proofs::Bare::is_rest))]
fn bare_of(bytes: &[u8]) -> Name
    requires { IsName bytes.now }
    ensures { result ≡ name_of bytes.now }
{
    match bytes {
        [b'0', rest @ ..] if !rest.is_empty() => bare_of(rest),
        _ => Name::from_valid(bytes),
    }
}

/// A name without the zeros before it, as it is read in a field file.
pub fn bare_name(name: &Name) -> Name
    ensures { result ≡ name_of name.now }
{
    bare_of(name.bytes())
}
