// Items by index, of which a mark for each block of 16 says whether there are any.
ghost use Rattle.std.specs.Prelude.{◌≡◌, ◌+◌, ◌/◌, ◌<◌, ◌≤◌, ℕ, length, get_or, Option, None};
ghost use Rattle.sequence.specs.declared.Triplet.{Triplet};
ghost use Rattle.sequence.specs.Lists.{each};
ghost use Rattle.sequence.specs.Sheets.{emit};
ghost use Rattle.sequence.specs.Sinks.{Gains};
ghost use Rattle.sequence.specs.Given.{AskedBelow, GivesBelow};

use crate::{Sink, Triplet};

// The items below n, in order: a block that is not marked, and so has none, is passed over.
pub fn put_marked<F: Fn(usize) -> Option<Triplet>>(
    n: usize,
    blocks: &[u32],
    item: F,
    sink: &mut Sink<'_>,
)
    requires asked { AskedBelow n (F.pre item) }
    requires n_bound { (n ≤ 256) × (16 ≤ length blocks.now) }
    requires at_bound { sink.old.count < 0x800_0000 }
    ensures puts { (f : ℕ → Option Triplet) → GivesBelow n (F.post item) f → ((i : ℕ) → i < n → get_or blocks.now (i / 16) 0 ≡ 0 → f i ≡ None) → Gains (each n (λ i. emit (f i))) sink.old sink.new }
    ensures most { sink.new.count ≤ sink.old.count + n }
{
    let count = (n + 15) / 16;
    for q in 0..count {
        if blocks[q] != 0 {
            for i in 16 * q..n.min(16 * q + 16) {
                sink.put(item(i));
            }
        }
    }
}
