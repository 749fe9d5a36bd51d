// The linear rows, each with its rows and its columns.
#![tactic(auto)]

ghost use Rattle.std.specs.Prelude.{◌≡◌, ℕ, ◌+◌, ◌*◌, ◌<◌, ◌≤◌, get_or};
ghost use Rattle.sequence.specs.Lists.{each};
ghost use Rattle.sequence.specs.Sinks.{Gains};
ghost use Rattle.network.specs.Layout.{term_start};
ghost use Rattle.model.specs.Rows.{row_limits};
ghost use Rattle.kkt_index.specs.Index.{shape_of, linear_start};
ghost use Rattle.kkt.specs.declared.Side.TheVariants.{Above, Below};
ghost use Rattle.kkt.specs.Slots.{row_slots};
ghost use Rattle.kkt.specs.Walks.{emitted_at};
ghost use Rattle.kkt_rows.specs.Sides.{dual_at, slack_at, pair_at, terms_at, side_at};

use kkt::{KktSite, Side, entry, put_all};
use kkt_index::{Block, rows_of};
use model::RowLimits;
use model::rows::row_limits;
use network::layout::wide;
use network::{Field, Part};
use sequence::Sink;
use snapping::{LinearDuals, row_value, snap_linear_at};
use solution::{OperatingPoint, PointSite};

// Linear row q, whose terms begin at a place.
#[derive(Clone, Copy)]
struct LinearRow<'a> {
    site: KktSite<'a>,
    q: usize,
    start: usize,
    ghost q_lt_rows: { q < site.kkt.grid.plan.counts.rows },
    ghost begins: { start ≡ term_start site.kkt.grid.plan.counts site.kkt.grid.plan.wiring.now q },
}

// One side of a linear row, which is a row of the linear block, with its dual and its slack.
#[derive(Clone, Copy)]
struct RowSide<'a> {
    line: LinearRow<'a>,
    side: Side,
    dual: f64,
    slack: f64,
    row: usize,
    ghost dual_is: { dual ≡ dual_at line.site side line.q },
    ghost slack_is: { slack ≡ slack_at line.site side line.q },
    ghost low: { row ≤ 128 },
}

// `count` terms of the side's row from a place on, which name indexes of block b: a pair of entries each.
#[inline(always)]
fn put_terms(at: &RowSide<'_>, b: Block, start: usize, count: usize, sink: &mut Sink<'_>)
    requires in_terms { start + count ≤ at.now.line.site.kkt.grid.plan.counts.terms }
    requires by_index { (t : ℕ) → t < count → get_or at.now.line.site.term_index.now (start + t) 0 ≤ 0x1_0000 }
    requires at_bound { sink.old.count < 0x1000_0000 }
    ensures puts { Gains (emitted_at at.now.line.site.kkt (each count (λ t. pair_at at.now.line.site at.now.side at.now.line.q at.now.row b (start + t)))) sink.old sink.new }
    ensures most { sink.new.count ≤ sink.old.count + 2 * count }
{
    let site = &at.line.site;
    let x = site.kkt.index;
    for t in 0..count {
        let i = wide(site.term_index[start + t]);
        let coefficient = site.term_coefficient[start + t];
        let in_row = at.side.row_times(at.dual, coefficient);
        let in_column = at.side.column_times(coefficient);
        let pair = [
            entry(x, Block::Linear, at.row, b, i, in_row),
            entry(x, b, i, Block::Linear, at.row, in_column),
        ];
        put_all(sink, pair);
    }
}

// Both runs of terms of the side's row: those of flows, then those of dispatch.
#[inline(always)]
fn put_both_terms(at: &RowSide<'_>, sink: &mut Sink<'_>)
    requires { sink.old.count < 0x800_0000 }
    ensures puts { Gains (emitted_at at.now.line.site.kkt (terms_at at.now.line.site at.now.side at.now.line.q at.now.row)) sink.old sink.new }
    ensures most { sink.new.count ≤ sink.old.count + 2048 }
{
    let q = at.line.q;
    let start = at.line.start;
    let flows = at.line.site.kkt.grid.word(Part::FlowTerms, q);
    let generations = at.line.site.kkt.grid.word(Part::GenerationTerms, q);
    put_terms(at, Block::Flow, start, flows, sink);
    put_terms(at, Block::Pg, start + flows, generations, sink);
}

// The side: its terms, and its slack on the diagonal.
#[inline(always)]
fn put_side(at: &RowSide<'_>, sink: &mut Sink<'_>)
    requires { sink.old.count < 0x800_0000 }
    ensures puts { Gains (emitted_at at.now.line.site.kkt (side_at at.now.line.site at.now.side at.now.line.q at.now.row)) sink.old sink.new }
    ensures most { sink.new.count ≤ sink.old.count + 2049 }
{
    put_both_terms(at, sink);
    if !at.side.slackens() {
        return;
    }
    let x = at.line.site.kkt.index;
    sink.put(entry(x, Block::Linear, at.row, Block::Linear, at.row, at.slack));
}

// A linear row, by its limits. It starts at a row of the linear block.
#[inline(always)]
fn put_row(line: &LinearRow<'_>, row: usize, sink: &mut Sink<'_>)
    requires { (row < 128) × (sink.old.count < 0x400_0000) }
    ensures puts { let c = line.now.site.kkt.grid.plan.counts in let w = line.now.site.kkt.grid.plan.wiring.now in Gains (emitted_at line.now.site.kkt (row_slots c w line.now.site.term_index.now line.now.site.term_coefficient.now (shape_of (row_limits c w line.now.site.kkt.grid.plan.readings.now line.now.q)) line.now.q row)) sink.old sink.new }
    ensures most { sink.new.count ≤ sink.old.count + 4098 }
{
    let line = *line;
    let site = line.site;
    let q = line.q;
    let point = OperatingPoint {
        grid: site.kkt.grid,
        pieces: site.kkt.index.pieces,
        sheet: site.kkt.sheet,
    };
    let point_site = PointSite {
        point,
        term_index: site.term_index,
        term_coefficient: site.term_coefficient,
    };
    let duals = snap_linear_at(&point_site, q);
    let value = row_value(
        site.kkt.grid.plan.wiring,
        site.term_index,
        site.term_coefficient,
        site.kkt.sheet,
        site.kkt.grid.plan.counts,
        site.kkt.index.pieces,
        q,
    );
    let base = site.kkt.grid.reading(Field::BaseMva, 0);
    match row_limits(&site.kkt.grid.plan, q) {
        RowLimits::None => {}
        RowLimits::Upper(upper) => {
            let slack = upper / base - value;
            let above = RowSide {
                line,
                side: Side::Above,
                dual: duals.upper,
                slack,
                row,
            };
            put_side(&above, sink)
        }
        RowLimits::Lower(lower) => {
            let slack = value - lower / base;
            let below = RowSide {
                line,
                side: Side::Below,
                dual: duals.lower,
                slack,
                row,
            };
            put_side(&below, sink)
        }
        RowLimits::Both(upper, lower) => {
            let upper_slack = upper / base - value;
            let lower_slack = value - lower / base;
            let first = RowSide {
                line,
                side: Side::Above,
                dual: duals.upper,
                slack: upper_slack,
                row,
            };
            let second = RowSide {
                line,
                side: Side::Below,
                dual: duals.lower,
                slack: lower_slack,
                row: row + 1,
            };
            put_side(&first, sink);
            put_side(&second, sink)
        }
        RowLimits::Equal(_) => {
            let level = RowSide {
                line,
                side: Side::Level,
                dual: 0.0,
                slack: 0.0,
                row,
            };
            put_side(&level, sink)
        }
    }
}

// Every linear row.
#[inline(always)]
pub fn put_rows(site: &KktSite<'_>, sink: &mut Sink<'_>)
    requires { sink.old.count < 0x200_0000 }
    ensures puts { let c = site.now.kkt.grid.plan.counts in let w = site.now.kkt.grid.plan.wiring.now in let r = site.now.kkt.grid.plan.readings.now in Gains (emitted_at site.now.kkt (each c.rows (λ q. row_slots c w site.now.term_index.now site.now.term_coefficient.now (shape_of (row_limits c w r q)) q (linear_start c w r q)))) sink.old sink.new }
    ensures most { sink.new.count ≤ sink.old.count + 0x8_0000 }
{
    let rows = *site;
    let to = site.kkt.grid.plan.counts.rows;
    let mut row = 0;
    let mut start = 0;
    for q in 0..to {
        let line = LinearRow {
            site: rows,
            q,
            start,
        };
        put_row(&line, row, sink);
        row += rows_of(row_limits(&site.kkt.grid.plan, q));
        start += site.kkt.grid.plan.row_terms(q);
    }
}
