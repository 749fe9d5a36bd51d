// Columns of the generators, of their epigraphs and of their segments' duals.
#![tactic(auto)]

ghost use Rattle.std.specs.Prelude.{◌≡◌, ℕ, ◌+◌, ◌*◌, ◌<◌, ◌≤◌, ◌++◌, [], ◌∷◌, map, None};
ghost use Rattle.sequence.specs.Lists.{each};
ghost use Rattle.sequence.specs.Sinks.{Gains};
ghost use Rattle.solution.specs.Sheet.{pieces, piece_rank};
ghost use Rattle.kkt.specs.Slots.{pg_own, pg_segment, cost_segment, segment_column, segments_of};
ghost use Rattle.kkt.specs.Walks.{emitted_at, item_at, triple};
ghost use Rattle.kkt_generators.specs.Turns.{OwnIs, SegmentIs, turn};

use kkt::{Kkt, entry, put_all};
use kkt_index::Block;
use network::{Field, Grid, Part};
use sequence::{Sink, Triplet};
use snapping::{segment_dual, segment_slack};
use solution::{Entry, next_piece};

// Every generator's turn of a loop: what generator j has of its own, then what each of its segments s has, whose
// epigraph is of rank g.
fn put_turns<
    O: Fn(usize) -> [Option<Triplet>; 4],
    S: Fn(usize, usize, usize) -> [Option<Triplet>; 3],
>(grid: &Grid<'_>, own: O, of_segment: S, sink: &mut Sink<'_>)
    requires own_callable { (j : ℕ) → j < grid.now.plan.counts.generators → O.pre own j }
    requires segment_callable { (j s : ℕ) → j < grid.now.plan.counts.generators → s < grid.now.plan.counts.segments → piece_rank grid.now.plan.counts grid.now.plan.wiring.now j < pieces grid.now.plan.counts grid.now.plan.wiring.now → S.pre of_segment j (piece_rank grid.now.plan.counts grid.now.plan.wiring.now j) s }
    requires at_bound { sink.old.count < 0x400_0000 }
    ensures puts { (f : _) (g : _) → OwnIs (O.post own) f → SegmentIs (S.post of_segment) g → Gains (each grid.now.plan.counts.generators (turn grid.now.plan.counts grid.now.plan.wiring.now f g)) sink.old sink.new }
    ensures most { sink.new.count ≤ sink.old.count + 0x1_0000 }
{
    let mut rank = 0;
    let mut start = 0;
    for j in 0..grid.plan.counts.generators {
        let count = grid.word(Part::Segments, j);
        put_all(sink, own(j));
        for t in 0..count {
            put_all(sink, of_segment(j, rank, start + t));
        }
        rank = next_piece(rank, count);
        start += count;
    }
}

// Every pg column: objective Hessian, gen-bound stationarity and power balance, then its segments' entries.
pub fn put_dispatch(kkt: &Kkt<'_>, sink: &mut Sink<'_>)
    requires { sink.old.count < 0x400_0000 }
    ensures puts { Gains (emitted_at kkt.now (each kkt.now.grid.plan.counts.generators (λ j. pg_own kkt.now.grid.plan.counts kkt.now.grid.plan.wiring.now j ++ segments_of kkt.now.grid.plan.counts kkt.now.grid.plan.wiring.now pg_segment j))) sink.old sink.new }
    ensures most { sink.new.count ≤ sink.old.count + 0x1_0000 }
{
    let own = |j: usize|
        requires { j < kkt.now.grid.plan.counts.generators }
        ensures { result ≡ map (item_at kkt.entry.now) (pg_own kkt.entry.now.grid.plan.counts kkt.entry.now.grid.plan.wiring.now j) }
    {
        let curvature = 2.0 * kkt.grid.reading(Field::Cq, j);
        let lower = kkt.value(Entry::RhoLb, j);
        let upper = kkt.value(Entry::RhoUb, j);
        let bus = kkt.grid.word(Part::GenBus, j);
        [
            entry(kkt.index, Block::Pg, j, Block::Pg, j, curvature),
            entry(kkt.index, Block::RhoLb, j, Block::Pg, j, lower),
            entry(kkt.index, Block::RhoUb, j, Block::Pg, j, -upper),
            entry(kkt.index, Block::NuBal, bus, Block::Pg, j, 1.0),
        ]
    };
    let of_segment = |j: usize, g: usize, s: usize|
        requires { (j < kkt.now.grid.plan.counts.generators) × (g < kkt.now.index.pieces) × (s < kkt.now.grid.plan.counts.segments) }
        ensures { result ≡ triple (item_at kkt.entry.now) (pg_segment j g s) }
    {
        let slope = kkt.grid.reading(Field::Slopes, s);
        let c = kkt.grid.plan.counts;
        let readings = kkt.grid.plan.readings;
        let dual = segment_dual(readings, kkt.sheet, c, kkt.index.pieces, j, g, s);
        [
            entry(kkt.index, Block::Segments, s, Block::Pg, j, -dual * slope),
            None,
            None,
        ]
    };
    put_turns(&kkt.grid, own, of_segment, sink);
}

// Every epigraph's column.
pub fn put_epigraphs(kkt: &Kkt<'_>, sink: &mut Sink<'_>)
    requires { sink.old.count < 0x400_0000 }
    ensures puts { Gains (emitted_at kkt.now (each kkt.now.grid.plan.counts.generators (segments_of kkt.now.grid.plan.counts kkt.now.grid.plan.wiring.now cost_segment))) sink.old sink.new }
    ensures most { sink.new.count ≤ sink.old.count + 0x1_0000 }
{
    let own = |_: usize|
        ensures { result ≡ None ∷ None ∷ None ∷ None ∷ [] }
    { [None; 4] };
    let of_segment = |j: usize, g: usize, s: usize|
        requires { (j < kkt.now.grid.plan.counts.generators) × (g < kkt.now.index.pieces) × (s < kkt.now.grid.plan.counts.segments) }
        ensures { result ≡ triple (item_at kkt.entry.now) (cost_segment j g s) }
    {
        let c = kkt.grid.plan.counts;
        let readings = kkt.grid.plan.readings;
        let dual = segment_dual(readings, kkt.sheet, c, kkt.index.pieces, j, g, s);
        [
            entry(kkt.index, Block::Segments, s, Block::Cost, g, dual),
            None,
            None,
        ]
    };
    put_turns(&kkt.grid, own, of_segment, sink);
}

// Every column of a segment's dual.
pub fn put_segment_duals(kkt: &Kkt<'_>, sink: &mut Sink<'_>)
    requires { sink.old.count < 0x400_0000 }
    ensures puts { Gains (emitted_at kkt.now (each kkt.now.grid.plan.counts.generators (segments_of kkt.now.grid.plan.counts kkt.now.grid.plan.wiring.now segment_column))) sink.old sink.new }
    ensures most { sink.new.count ≤ sink.old.count + 0x1_0000 }
{
    let own = |_: usize|
        ensures { result ≡ None ∷ None ∷ None ∷ None ∷ [] }
    { [None; 4] };
    let of_segment = |j: usize, g: usize, s: usize|
        requires { (j < kkt.now.grid.plan.counts.generators) × (g < kkt.now.index.pieces) × (s < kkt.now.grid.plan.counts.segments) }
        ensures { result ≡ triple (item_at kkt.entry.now) (segment_column j g s) }
    {
        let slope = kkt.grid.reading(Field::Slopes, s);
        let c = kkt.grid.plan.counts;
        let readings = kkt.grid.plan.readings;
        let slack = segment_slack(readings, kkt.sheet, c, kkt.index.pieces, j, g, s);
        [
            entry(kkt.index, Block::Pg, j, Block::Segments, s, slope),
            entry(kkt.index, Block::Cost, g, Block::Segments, s, -1.0),
            entry(kkt.index, Block::Segments, s, Block::Segments, s, slack),
        ]
    };
    put_turns(&kkt.grid, own, of_segment, sink);
}
