// The susceptance sums of every bus, made once and kept by bus, and a bus's as entries of a column.
#![tactic(auto)]

ghost use Rattle.std.specs.Prelude.{◌≡◌, ◌+◌, ◌*◌, ◌<◌, ◌≤◌, length};
ghost use Rattle.sequence.specs.Lists.{each};
ghost use Rattle.sequence.specs.Sinks.{Gains};
ghost use Rattle.kkt.specs.Matrix.{kept};
ghost use Rattle.kkt.specs.Walks.{taken, balance_slots, emitted_at};
ghost use Rattle.kkt_cells.specs.Cells.{cells_of, Kept};

use kkt::{Kkt, kept};
use kkt_index::Block;
use kkt_sums::{put_sums, taken};
use network::layout::wide;
use sequence::{Sink, Triplet};
use susceptance::{Ends, make_row};

// Bus j's sums that are not zero, into a sink. Of its two calls only the first is susceptance's too.
// Here and below `acc` and `hit` stay single: with a struct of two `&mut` each function would promise to keep the two.
fn keep_row(ends: &Ends<'_>, j: usize, acc: &mut [f64], hit: &mut [u32], sink: &mut Sink<'_>)
    requires buses_in_bounds { (ends.now.grid.plan.counts.buses ≤ length acc.old) × (16 + ends.now.grid.plan.counts.buses ≤ length hit.old) }
    requires j_lt_buses { (j < ends.now.grid.plan.counts.buses) × (sink.old.count < 0x800_0000) }
    ensures puts { Gains (cells_of ends.now.grid.plan.counts ends.now.grid.plan.wiring.now ends.now.grid.plan.readings.now j) sink.old sink.new }
    ensures most { sink.new.count ≤ sink.old.count + 256 }
{
    make_row(ends, j, acc, hit);
    put_sums(ends.grid.plan.counts.buses, acc, hit, j, sink);
}

// Every bus's sums that are not zero: where each bus's start, the other buses, and the sums.
// There are at most one for each bus and two for each branch, and the empty sink holds as many.
pub fn keep_sums(
    ends: &Ends<'_>,
    acc: &mut [f64],
    hit: &mut [u32],
    starts: &mut [u32],
    sink: &mut Sink<'_>,
)
    requires buses_in_bounds { (ends.now.grid.plan.counts.buses ≤ length acc.old) × (16 + ends.now.grid.plan.counts.buses ≤ length hit.old) }
    requires buses_in_bounds_2 { (ends.now.grid.plan.counts.buses < length starts.old) × (ends.now.grid.plan.counts.buses + 2 * ends.now.grid.plan.counts.branches ≤ sink.old.limit) }
    requires empty { sink.old.count ≡ 0 }
    ensures cells { Gains (each ends.now.grid.plan.counts.buses (cells_of ends.now.grid.plan.counts ends.now.grid.plan.wiring.now ends.now.grid.plan.readings.now)) sink.old sink.new }
    ensures kept { Kept ends.now.grid.plan.counts ends.now.grid.plan.wiring.now ends.now.grid.plan.readings.now starts.new sink.new.rows.now sink.new.values.now }
{
    let n = ends.grid.plan.counts.buses;
    starts[0] = 0;
    for j in 0..n {
        keep_row(ends, j, acc, hit, sink);
        starts[j + 1] = sink.count as u32;
    }
}

// A kept sum as an entry of a column.
fn cell_item(less: bool, from: usize, col: usize, i: usize, v: f64) -> Option<Triplet>
    requires { (from ≤ 0x2_0000) × (col ≤ 0x2_0000) × (i ≤ 256) }
    ensures { result ≡ kept (from + i) col (taken less v) }
{
    kept(from + i, col, taken(less, v))
}

// A `Kkt` with every bus's sums that are not zero: where each bus's start, the other buses, and the sums.
#[derive(Clone, Copy)]
pub struct KktSums<'a, 'b> {
    pub kkt: Kkt<'a>,
    pub starts: &'b [u32],
    pub buses: &'b [u32],
    pub values: &'b [f64],
    pub ghost kept: { Kept kkt.grid.plan.counts kkt.grid.plan.wiring.now kkt.grid.plan.readings.now starts.now buses.now values.now },
}

// Bus j's kept sums as entries: in its va column, negatively, against the balances, or in its nu_bal
// column against the angles.
pub fn put_kept(sums: &KktSums<'_, '_>, less: bool, j: usize, sink: &mut Sink<'_>)
    requires { (j < sums.now.kkt.grid.plan.counts.buses) × (sink.old.count < 0x800_0000) }
    ensures puts { Gains (emitted_at sums.now.kkt (balance_slots less sums.now.kkt.grid.plan.counts sums.now.kkt.grid.plan.wiring.now j)) sink.old sink.new }
    ensures most { sink.new.count ≤ sink.old.count + 1280 }
{
    let va = sums.kkt.index.start(Block::Va);
    let nu_bal = sums.kkt.index.start(Block::NuBal);
    let (from, col) = if less {
        (nu_bal, va + j)
    } else {
        (va, nu_bal + j)
    };
    let first = wide(sums.starts[j]);
    let to = wide(sums.starts[j + 1]);
    for t in first..to {
        sink.put(cell_item(less, from, col, wide(sums.buses[t]), sums.values[t]));
    }
}
