// problem/dc.rs, `assemble_opf`: the entries of a generator's segments and of a linear row, in the Rust's order.
#![tactic(auto)]

ghost use Rattle.std.specs.Prelude.{◌≡◌, ◌++◌, ℕ, ◌+◌, ◌*◌, ◌<◌, ◌≤◌, length, get_or};
ghost use Rattle.std.specs.Float.Ieee.{neg};
ghost use Rattle.float64.specs.Values.{one};
ghost use Rattle.sequence.specs.Sinks.{Gains};
ghost use Rattle.network.specs.Layout.{segments_at, segment_start, term_start};
ghost use Rattle.model.specs.Rows.{row_limits};
ghost use Rattle.solution.specs.Sheet.{piece_rank};
ghost use Rattle.opf_layout.specs.declared.OpfRow.TheVariants.{LinearLimit};
ghost use Rattle.opf_layout.specs.Layout.{equality_rank, inequality_rank};
ghost use Rattle.opf_assembly.specs.Assembly.{segment_entries, linear_entries};
ghost use Rattle.opf_program.specs.Walks.{written_at};
ghost use Rattle.opf_rows.specs.Terms.{term_items, row_items};

use kkt::put_all;
use model::RowLimits;
use model::rows::row_limits;
use network::layout::wide;
use network::{Field, Part};
use opf_layout::{OpfColumn, OpfRow};
use opf_program::{Opf, OpfSite};
use sequence::Sink;

// A linear row, and where its terms start.
#[derive(Clone, Copy)]
pub struct LinearRow<'a> {
    pub site: OpfSite<'a>,
    pub q: usize,
    pub start: usize,
    pub ghost below: { q < site.opf.grid.plan.counts.rows },
    pub ghost begins: { start ≡ term_start site.opf.grid.plan.counts site.opf.grid.plan.wiring.now q },
}

// The segments of generator j, whose epigraph is of rank g: `count` from `start` on.
// By index: a segment's row and its slope are both found by it.
#[inline(always)]
pub fn put_segments(
    opf: &Opf<'_>,
    j: usize,
    g: usize,
    start: usize,
    count: usize,
    sink: &mut Sink<'_>,
)
    requires j_lt_generators { (j < opf.now.grid.plan.counts.generators) × (g ≡ piece_rank opf.now.grid.plan.counts opf.now.grid.plan.wiring.now j) × (start ≡ segment_start opf.now.grid.plan.counts opf.now.grid.plan.wiring.now j) × (count ≡ segments_at opf.now.grid.plan.counts opf.now.grid.plan.wiring.now j) }
    requires g_bound { (g ≤ 0x1_0000) × (start + count ≤ opf.now.grid.plan.counts.segments) × (sink.old.count < 0x800_0000) }
    ensures puts { Gains (written_at opf.now (segment_entries opf.now.grid.plan.counts opf.now.grid.plan.wiring.now opf.now.grid.plan.readings.now j)) sink.old sink.new }
    ensures most { sink.new.count ≤ sink.old.count + 2 * count }
{
    for t in 0..count {
        let s = start + t;
        let slope = opf.grid.reading(Field::Slopes, s);
        put_all(
            sink,
            [
                opf.entry(OpfRow::Segment, s, OpfColumn::Pg, j, slope),
                opf.entry(OpfRow::Segment, s, OpfColumn::Cost, g, -1.0),
            ],
        );
    }
}

// `count` terms of a linear row from a place on, which name columns of a block, in a row of the program, by a sign.
// By index, as the contract states the terms: two slices cut to the run and zipped would be no shorter.
#[inline(always)]
fn put_terms(
    site: &OpfSite<'_>,
    b: OpfRow,
    at: usize,
    sign: f64,
    col: OpfColumn,
    start: usize,
    count: usize,
    sink: &mut Sink<'_>,
)
    requires count_in_bounds { (start + count ≤ length site.now.term_index.now) × (start + count ≤ length site.now.term_coefficient.now) × (start + count ≤ 1024) }
    requires by_index { (t : ℕ) → t < count → get_or site.now.term_index.now (start + t) 0 ≤ 0x1_0000 }
    requires row_bound { (at ≤ 0x1_0000) × (sink.old.count < 0x1000_0000) }
    ensures puts { Gains (term_items site.now.opf.layout site.now.term_index.now site.now.term_coefficient.now b at sign col start count) sink.old sink.new }
    ensures most { sink.new.count ≤ sink.old.count + count }
{
    for t in 0..count {
        let j = wide(site.term_index[start + t]);
        let value = sign * site.term_coefficient[start + t];
        sink.put(site.opf.entry(b, at, col, j, value));
    }
}

// A linear row in a row of the program, by a sign: its terms of flows, then those of dispatch.
#[inline(always)]
fn put_written(row: &LinearRow<'_>, b: OpfRow, at: usize, sign: f64, sink: &mut Sink<'_>)
    requires { (at ≤ 0x1_0000) × (sink.old.count < 0x800_0000) }
    ensures puts { Gains (row_items row.now.site.opf.layout row.now.site.opf.grid.plan.counts row.now.site.opf.grid.plan.wiring.now row.now.site.term_index.now row.now.site.term_coefficient.now b at sign row.now.q) sink.old sink.new }
    ensures most { sink.new.count ≤ sink.old.count + 1024 }
{
    let site = &row.site;
    let flows = site.opf.grid.word(Part::FlowTerms, row.q);
    let generations = site.opf.grid.word(Part::GenerationTerms, row.q);
    let start = row.start;
    put_terms(site, b, at, sign, OpfColumn::Flow, start, flows, sink);
    put_terms(
        site,
        b,
        at,
        sign,
        OpfColumn::Pg,
        start + flows,
        generations,
        sink,
    );
}

// Both rows of a linear row, whose limits differ: upper, then lower.
#[inline(always)]
fn put_both(row: &LinearRow<'_>, at: usize, sink: &mut Sink<'_>)
    requires { (at < 0x1_0000) × (sink.old.count < 0x400_0000) }
    ensures puts { Gains (row_items row.now.site.opf.layout row.now.site.opf.grid.plan.counts row.now.site.opf.grid.plan.wiring.now row.now.site.term_index.now row.now.site.term_coefficient.now LinearLimit at one row.now.q ++ row_items row.now.site.opf.layout row.now.site.opf.grid.plan.counts row.now.site.opf.grid.plan.wiring.now row.now.site.term_index.now row.now.site.term_coefficient.now LinearLimit (at + 1) (neg one) row.now.q) sink.old sink.new }
    ensures most { sink.new.count ≤ sink.old.count + 2048 }
{
    put_written(row, OpfRow::LinearLimit, at, 1.0, sink);
    put_written(row, OpfRow::LinearLimit, at + 1, -1.0, sink);
}

// A linear row by its limits, at a row of the equalities or of the inequalities.
#[inline(always)]
pub fn put_linear(row: &LinearRow<'_>, equal: usize, unequal: usize, sink: &mut Sink<'_>)
    requires few { sink.old.count < 0x400_0000 }
    requires equal_value { (equal ≡ equality_rank row.now.site.opf.grid.plan.counts row.now.site.opf.grid.plan.wiring.now row.now.site.opf.grid.plan.readings.now row.now.q) × (unequal ≡ inequality_rank row.now.site.opf.grid.plan.counts row.now.site.opf.grid.plan.wiring.now row.now.site.opf.grid.plan.readings.now row.now.q) × (equal < 0x1_0000) × (unequal < 0x1_0000) }
    ensures puts { Gains (written_at row.now.site.opf (linear_entries row.now.site.opf.grid.plan.counts row.now.site.opf.grid.plan.wiring.now row.now.site.opf.grid.plan.readings.now row.now.site.term_index.now row.now.site.term_coefficient.now (row_limits row.now.site.opf.grid.plan.counts row.now.site.opf.grid.plan.wiring.now row.now.site.opf.grid.plan.readings.now row.now.q) row.now.q)) sink.old sink.new }
    ensures most { sink.new.count ≤ sink.old.count + 2048 }
{
    match row_limits(&row.site.opf.grid.plan, row.q) {
        RowLimits::None => {}
        RowLimits::Upper(_) => put_written(row, OpfRow::LinearLimit, unequal, 1.0, sink),
        RowLimits::Lower(_) => put_written(row, OpfRow::LinearLimit, unequal, -1.0, sink),
        RowLimits::Both(_, _) => put_both(row, unequal, sink),
        RowLimits::Equal(_) => put_written(row, OpfRow::LinearEqual, equal, 1.0, sink),
    }
}
