// The susceptance sums of a bus as entries of a column.
#![tactic(auto)]

ghost use Rattle.std.specs.Prelude.{◌≡◌, false, ℕ, ◌+◌, ◌/◌, ◌<◌, ◌≤◌, length, get_or};
ghost use Rattle.std.specs.Float.{nan};
ghost use Rattle.float64.specs.Values.{nought};
ghost use Rattle.sequence.specs.Sinks.{Gains};
ghost use Rattle.kkt.specs.Walks.{taken, sum_item, span_of};

use kkt::kept;
use sequence::marking::put_marked;
use sequence::{Sink, Triplet};

// A sum taken negatively, or as it is.
pub fn taken(less: bool, v: f64) -> f64
    ensures { result ≡ taken less v }
{
    if less { -v } else { v }
}

// Sum i, at row i of a column: none where it is zero.
fn sum_item(acc: &[f64], col: usize, i: usize) -> Option<Triplet>
    requires { (i < length acc.now) × (col ≤ 256) × (i ≤ 256) }
    ensures { result ≡ sum_item false acc.now 0 col i }
{
    kept(i, col, acc[i])
}

// The first n sums, by blocks of 16: a block that is not marked has none other than +0.
// `acc` and `hit` stay single, as where they are written (`make_row` of susceptance).
pub fn put_sums(n: usize, acc: &[f64], hit: &[u32], col: usize, sink: &mut Sink<'_>)
    requires n_bound { (n ≤ 256) × (n ≤ length acc.now) × (16 ≤ length hit.now) × (col ≤ 256) }
    requires by_index { (i : ℕ) → i < n → get_or hit.now (i / 16) 0 ≡ 0 → get_or acc.now i nan ≡ nought }
    requires at_bound { sink.old.count < 0x800_0000 }
    ensures puts { Gains (span_of false acc.now 0 col 0 n) sink.old sink.new }
    ensures most { sink.new.count ≤ sink.old.count + n }
{
    put_marked(n, hit, |i| sum_item(acc, col, i), sink);
}
