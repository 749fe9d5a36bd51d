// The snapped sheet, entry by entry.
ghost use Rattle.std.specs.Prelude.{◌≡◌, ◌+◌, ◌<◌, ◌≤◌, length};
ghost use Rattle.sequence.specs.Lists.{each, front};
ghost use Rattle.network.specs.Layout.{segments_at, segment_start};
ghost use Rattle.solution.specs.Sheet.{size, piece_rank, sheet_length};
ghost use Rattle.sens_snap.specs.Points.{PiecesAre, segment_words_at, plain_words_at, entry_words_at, snap_sheet_at};

use network::Part;
use snapping::{segment_dual, snapped_at};
use solution::{Entry, OperatingPoint, entry_size, next_piece};

// An operating point that has as many pieces as its grid.
#[derive(Clone, Copy)]
pub struct CountedPoint<'a> {
    pub point: OperatingPoint<'a>,
    pub ghost pieces_are: { PiecesAre point },
}

// An entry's words by index.
fn put_words(point: &OperatingPoint<'_>, e: Entry, out: &mut [f64])
    requires { length out.old ≡ size point.now.grid.plan.counts point.now.pieces e }
    ensures { out.new ≡ plain_words_at point.now e }
{
    for (i, word) in out.iter_mut().enumerate() {
        *word = snapped_at(point, e, i);
    }
}

// The segment duals of generator j, whose epigraph is of rank g and whose first segment is `start`.
fn put_generator_duals(
    counted: &CountedPoint<'_>,
    j: usize,
    g: usize,
    start: usize,
    out: &mut [f64],
)
    requires j_lt_generators { (j < counted.now.point.grid.plan.counts.generators) × (g ≡ piece_rank counted.now.point.grid.plan.counts counted.now.point.grid.plan.wiring.now j) × (start ≡ segment_start counted.now.point.grid.plan.counts counted.now.point.grid.plan.wiring.now j) }
    requires out_len { length out.old ≡ segments_at counted.now.point.grid.plan.counts counted.now.point.grid.plan.wiring.now j }
    ensures { out.new ≡ segment_words_at counted.now.point j }
{
    let point = &counted.point;
    let plan = point.grid.plan;
    for (t, dual) in out.iter_mut().enumerate() {
        *dual = segment_dual(
            plan.readings,
            point.sheet,
            plan.counts,
            point.pieces,
            j,
            g,
            start + t,
        );
    }
}

// Every generator's segment duals.
fn put_segment_duals(counted: &CountedPoint<'_>, out: &mut [f64])
    requires { length out.old ≡ counted.now.point.grid.plan.counts.segments }
    ensures { out.new ≡ each counted.now.point.grid.plan.counts.generators (segment_words_at counted.now.point) }
{
    let grid = &counted.point.grid;
    let to = grid.plan.counts.generators;
    let mut g = 0;
    let mut start = 0;
    for j in 0..to {
        let count = grid.word(Part::Segments, j);
        let end = start + count;
        put_generator_duals(counted, j, g, start, &mut out[start..end]);
        g = next_piece(g, count);
        start = end;
    }
}

// An entry's words.
fn put_entry(counted: &CountedPoint<'_>, e: Entry, out: &mut [f64])
    requires { length out.old ≡ size counted.now.point.grid.plan.counts counted.now.point.pieces e }
    ensures { out.new ≡ entry_words_at counted.now.point e }
{
    match e {
        Entry::SegmentDual => put_segment_duals(counted, out),
        _ => put_words(&counted.point, e, out),
    }
}

// The whole snapped sheet into the front of another.
pub fn snap_into(counted: &CountedPoint<'_>, out: &mut [f64])
    requires { sheet_length counted.now.point.grid.plan.counts counted.now.point.pieces ≤ length out.old }
    ensures out_after { out.new ≡ front (snap_sheet_at counted.now.point) out.old }
    ensures sheet_len { length (snap_sheet_at counted.now.point) ≡ sheet_length counted.now.point.grid.plan.counts counted.now.point.pieces }
{
    let point = &counted.point;
    let mut at = 0;
    for e in Entry::ALL {
        let end = at + entry_size(point.grid.plan.counts, point.pieces, *e);
        put_entry(counted, *e, &mut out[at..end]);
        at = end;
    }
}
