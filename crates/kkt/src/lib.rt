// sens/dc.rs, `kkt_triplets`: entries of the KKT matrix by value, and those of a column into the sheets.
#![tactic(auto)]

ghost use Rattle.std.specs.Prelude.{◌≡◌, ◌+◌, ◌<◌, ◌≤◌};
ghost use Rattle.sequence.specs.Sinks.{Gains};
ghost use Rattle.kkt_index.specs.Index.{Narrow, start_in};
ghost use Rattle.kkt.specs.Matrix.{kept};
ghost use Rattle.kkt.specs.Walks.{emits, row_times, column_times, slackens};

pub mod frame;

pub use frame::{Kkt, KktSite};
use kkt_index::{Block, KktIdx};
use sequence::{Sink, Triplet};

// On which side a linear row binds: at its upper limit, at its lower, or at both as one.
// It stays an enum: a kind of row, of which the matrix's definitions speak, and no choice of a step.
#[derive(Clone, Copy)]
pub enum Side {
    Above,
    Below,
    Level,
}

impl Side {
    // What a side with a dual holds in its row against a term of a coefficient.
    pub fn row_times(self, dual: f64, coefficient: f64) -> f64
        ensures { result ≡ row_times self dual coefficient }
    {
        match self {
            Side::Above => -dual * coefficient,
            Side::Below => dual * coefficient,
            Side::Level => coefficient,
        }
    }

    // What it holds in its column.
    pub fn column_times(self, coefficient: f64) -> f64
        ensures { result ≡ column_times self coefficient }
    {
        match self {
            Side::Above | Side::Level => coefficient,
            Side::Below => -coefficient,
        }
    }

    // Whether it has a slack: an equality has none.
    pub fn slackens(self) -> bool
        ensures { result ≡ slackens self }
    {
        matches!(self, Side::Above | Side::Below)
    }
}

// A value at a place: none where it is zero.
pub fn kept(row: usize, col: usize, value: f64) -> Option<Triplet>
    requires { (row < 0x1_0000_0000) × (col < 0x1_0000_0000) }
    ensures { result ≡ kept row col value }
{
    if value == 0.0 {
        return None;
    }
    Some(Triplet {
        row: row as u32,
        col: col as u32,
        value,
    })
}

// The entry of block a's row i and block b's column j: none where its value is zero.
pub fn entry(x: KktIdx, a: Block, i: usize, b: Block, j: usize, value: f64) -> Option<Triplet>
    requires narrow { Narrow x }
    requires i_bound { (i ≤ 0x1_0000) × (j ≤ 0x1_0000) }
    ensures { result ≡ kept (start_in x a + i) (start_in x b + j) value }
{
    kept(x.start(a) + i, x.start(b) + j, value)
}

// Triplets of a column, one after the other.
#[inline(always)]
pub fn put_all<const N: usize>(sink: &mut Sink<'_>, triplets: [Option<Triplet>; N])
    requires { sink.old.count + N ≤ 0x4000_0000 }
    ensures puts { Gains (emits triplets.entry) sink.old sink.new }
    ensures most { sink.new.count ≤ sink.old.count + N }
{
    for triplet in triplets {
        sink.put(triplet);
    }
}
