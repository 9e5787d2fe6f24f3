//! Who made which hard event.

ghost use Rattle.std.specs.Prelude.{◌≡◌, ◌<◌, ◌^◌, ℕ, List, All, IfOk, length, reverse, vec_len};
ghost use Rattle.idle_loop.specs.Makers.{AreMakers, filled};

use sleep_base::Mem;
use std::alloc::Global;

/// A waker made the hard events at these positions.
fn fill(makers: &mut Vec<u32>, who: u32, ranks: &[u32])
    requires { All (λ p. p < vec_len makers.old) ranks.now }
    ensures { makers.new.items ≡ filled who ranks.now makers.old.items }
{
    for &place in ranks {
        makers[place as usize] = who;
    }
}

/// The makers of all hard events, from the positions of each waker's, in the order of the wakers' numbers.
pub(crate) fn makers_of(alloc: Global, count: u32, ranks: &Vec<Vec<u32>>) -> Result<Vec<u32>, Mem>
    requires { (ms : List ℕ) × AreMakers count ms ranks.now.items }
    ensures few { IfOk result (λ makers. length makers.items < 2 ^ 32) }
    ensures made { IfOk result (λ makers. (ms : List ℕ) → AreMakers count ms ranks.now.items → makers.items ≡ reverse ms) }
{
    let mut makers = vec![in alloc; 0; count as usize]?;
    let mut who = 0;
    for own in ranks {
        fill(&mut makers, who, own);
        who += 1;
    }
    Ok(makers)
}
