// The ring of the last eight bursts: each is held until the block that it ends is brought, and burst B stands at 116 (B mod 8).
// It is lent as a slice of 928 bytes: an array's type would ask more of callers of `hold`, `gather_block` and `gather_flags` than their clauses do.
ghost use Rattle.std.specs.Prelude.{◌≡◌, ◌*◌, ◌%◌, ◌≤◌, ◌<◌, length};
ghost use Rattle.burst.specs.Ring.{held_bit, in_order, kept};

use crate::numbers::BurstNumber;

// Where burst B stands.
fn held_at(b: BurstNumber) -> usize
    ensures { (result ≡ 116 * (b.0 % 8)) × (result ≤ 812) }
{
    116 * (b.0 % 8) as usize
}

// Burst B is put in its place.
pub fn hold(b: BurstNumber, e: &[u8], held: &mut [u8])
    requires { (length e.now ≡ 116) × (length held.old ≡ 928) }
    ensures { held.new ≡ kept held.old b.0 e.now }
{
    let from = held_at(b);
    held[from..from + 116].copy_from_slice(e);
}

// e(x) of burst B.
#[tactic(auto, unfolding(crate::specs::Ring::held_bit))]
pub fn held_bit(b: BurstNumber, x: usize, held: &[u8]) -> u8
    requires { (x < 116) × (length held.now ≡ 928) }
    ensures { result ≡ held_bit held.now b.0 x }
{
    let from = held_at(b);
    bits::symbol(held[from + x])
}

// The eight bursts one after another, burst B first.
#[tactic(auto, unfolding(crate::specs::Ring::in_order))]
pub fn in_order(b: BurstNumber, held: &[u8], bursts: &mut [u8])
    requires { (length held.now ≡ 928) × (length bursts.old ≡ 928) }
    ensures { bursts.new ≡ in_order held.now b.0 }
{
    let (before, behind) = held.split_at(held_at(b));
    let (first, last) = bursts.split_at_mut(behind.len());
    first.copy_from_slice(behind);
    last.copy_from_slice(before);
}
