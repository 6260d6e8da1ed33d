// A set of stations as a number: station i is in it where bit i is set.
#![tactic(auto)]

ghost use Rattle.std.specs.Prelude.{◌≡◌};
ghost use Rattle.mask.specs.Mask as set;

// Whether station i is in the set.
#[tactic(auto, unfolding(crate::specs::Mask::has))]
pub fn has(mask: u64, i: u64) -> bool
    ensures { result ≡ set.has mask i }
{
    if i >= 64 {
        return false;
    }
    (mask >> i) % 2 == 1
}

// How many stations are in the set.
pub fn count(mask: u64) -> u64
    ensures { result ≡ set.count mask }
{
    u64::from(mask.count_ones())
}

// Whether every station of the set is below n.
pub fn below(mask: u64, n: u64) -> bool
    ensures { result ≡ set.below mask n }
{
    if n >= 64 {
        return true;
    }
    mask >> n == 0
}

// The stations that are in one set or the other.
#[tactic(auto, unfolding(crate::specs::Mask::join))]
pub fn join(a: u64, b: u64) -> u64
    ensures { result ≡ set.join a b }
{
    a | b
}

// The set of station i alone; the empty set for a station that no mask holds.
#[tactic(auto, unfolding(crate::specs::Mask::only))]
pub fn only(i: u64) -> u64
    ensures { result ≡ set.only i }
{
    if i >= 64 {
        return 0;
    }
    1 << i
}

// The stations below n.
#[tactic(auto, unfolding(crate::specs::Mask::all))]
pub fn all(n: u64) -> u64
    ensures { result ≡ set.all n }
{
    if n >= 64 {
        return u64::MAX;
    }
    (1 << n) - 1
}

// The stations of one set that are not in the other.
pub fn minus(a: u64, b: u64) -> u64
    ensures { result ≡ set.minus a b }
{
    a & !b
}
