//! Arithmetic on limbs of 64 bits, the lowest first.
ghost use Rattle.std.specs.Prelude.{◌≡◌, ◌↔◌, ◌+◌, ◌*◌, ◌≤◌, ◌<◌, IsTrue, length};
ghost use Rattle.wide_number.specs.Limbs.{limb_weight, value_below};

/// The limbs of a number.
pub(crate) const LIMBS: usize = 13;

/// What a limb holds is below this: 2^64.
pub(crate) const BASE: u128 = 18_446_744_073_709_551_616;

/// A limb with a product of limbs and a carry added: the new limb, and the carry to the next.
fn multiplied(limb: u64, by: u64, factor: u64, carry: u64) -> (u64, u64)
    ensures value { result.0 + result.1 * BASE ≡ limb + by * factor + carry }
    ensures limb { result.0 < BASE }
{
    let sum = u128::from(by) * u128::from(factor) + u128::from(limb) + u128::from(carry);
    ((sum % BASE) as u64, (sum / BASE) as u64)
}

/// Adds a number times a factor; the carry.
pub(crate) fn add_product(limbs: &mut [u64; LIMBS], by: &[u64; LIMBS], factor: u64) -> u64
    ensures value { value_below limbs.new LIMBS + result * limb_weight LIMBS
        ≡ value_below limbs.old LIMBS + value_below by.now LIMBS * factor }
    ensures below { value_below limbs.new LIMBS < limb_weight LIMBS }
{
    let mut carry = 0;
    for i in 0..LIMBS {
        let (limb, next) = multiplied(limbs[i], by[i], factor, carry);
        limbs[i] = limb;
        carry = next;
    }
    carry
}

/// A limb with another and a borrow taken off: the new limb, and the borrow from the next.
fn lowered(limb: u64, by: u64, borrow: u64) -> (u64, u64)
    requires { borrow ≤ 1 }
    ensures value { result.0 + by + borrow ≡ limb + result.1 * BASE }
    ensures limb { result.0 < BASE }
    ensures borrow { result.1 ≤ 1 }
{
    let rest = BASE + u128::from(limb) - u128::from(by) - u128::from(borrow);
    ((rest % BASE) as u64, 1 - (rest / BASE) as u64)
}

/// Takes a number off; the borrow.
pub(crate) fn subtract(limbs: &mut [u64; LIMBS], by: &[u64; LIMBS]) -> u64
    ensures value { value_below limbs.new LIMBS + value_below by.now LIMBS
        ≡ value_below limbs.old LIMBS + result * limb_weight LIMBS }
    ensures below { value_below limbs.new LIMBS < limb_weight LIMBS }
{
    let mut borrow = 0;
    for i in 0..LIMBS {
        let (limb, next) = lowered(limbs[i], by[i], borrow);
        limbs[i] = limb;
        borrow = next;
    }
    borrow
}

/// Whether a number is below another: the highest limbs that differ decide.
pub(crate) fn is_below(a: &[u64], b: &[u64]) -> bool
    requires a { length a.now ≡ LIMBS }
    requires b { length b.now ≡ LIMBS }
    ensures { IsTrue result ↔ (value_below a.now LIMBS < value_below b.now LIMBS) }
{
    let mut i = LIMBS;
    while i > 0 {
        i -= 1;
        if a[i] < b[i] {
            return true;
        }
        if a[i] > b[i] {
            return false;
        }
    }
    false
}
