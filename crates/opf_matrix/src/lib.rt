// problem/dc.rs, `assemble_opf`: A's and P's triplets into a sink, in the Rust's order of writing.
#![tactic(auto)]

ghost use Rattle.std.specs.Prelude.{◌≡◌, ◌≤◌};
ghost use Rattle.sequence.specs.Sinks.{Gains};
ghost use Rattle.network.specs.Layout.{reading, ReadingsLaid};
ghost use Rattle.opf_layout.specs.declared.Active.{Active};
ghost use Rattle.opf_layout.specs.Layout.{active_of, Narrow, Placed};
ghost use Rattle.opf_assembly.specs.Assembly.{blank, quad_triplets, a_triplets};

use kkt::put_all;
use model::rows::row_limits;
use network::layout::reading;
use network::{Counts, Field, Part, Site};
use opf_layout::{OpfColumn, OpfLayout, OpfRow, equalities_of, inequalities_of, sheds_at};
use opf_program::{Opf, OpfSite, put_branch};
use opf_rows::{LinearRow, put_linear, put_segments};
use program_builder::quad;
use sequence::Sink;
use solution::next_piece;

// A's triplets: zero values dropped, in the order written. No expression of A reads a solution.
#[inline(always)]
pub fn put_a(site: &Site<'_>, lay: OpfLayout, sink: &mut Sink<'_>)
    requires placed { Placed site.now.grid.plan.counts (active_of site.now.grid.plan.counts site.now.grid.plan.wiring.now site.now.grid.plan.readings.now) lay × Narrow lay }
    requires empty { sink.old.count ≡ 0 }
    ensures puts { Gains (a_triplets site.now.grid.plan.counts site.now.grid.plan.wiring.now site.now.grid.plan.readings.now site.now.term_index.now site.now.term_coefficient.now) sink.old sink.new }
    ensures most { sink.new.count ≤ 0x80_0000 }
{
    let c = site.grid.plan.counts;
    let opf = Opf {
        grid: site.grid,
        layout: lay,
    };
    let linear = OpfSite {
        opf,
        term_index: site.term_index,
        term_coefficient: site.term_coefficient,
    };
    // The sheds in the balances.
    let mut shed = 0;
    for i in 0..c.buses {
        if sheds_at(&site.grid.plan, i) {
            sink.put(opf.entry(OpfRow::Balance, i, OpfColumn::Shed, shed, 1.0));
            shed += 1;
        }
    }
    // The generators in the balances.
    for j in 0..c.generators {
        let bus = site.grid.word(Part::GenBus, j);
        sink.put(opf.entry(OpfRow::Balance, bus, OpfColumn::Pg, j, 1.0));
    }
    // The branches: their balances, flows, and thermal and angle limits.
    let mut line = 0;
    let mut phase = 0;
    for e in 0..c.branches {
        put_branch(&opf, e, line, phase, sink);
        line += usize::from(site.grid.word(Part::ThermalFlags, e) != 0);
        phase += usize::from(site.grid.word(Part::AngleFlags, e) != 0);
    }
    // The references.
    for t in 0..c.references {
        let bus = site.grid.word(Part::References, t);
        sink.put(opf.entry(OpfRow::Reference, t, OpfColumn::Va, bus, 1.0));
    }
    // The generators' limits.
    let mut rank = 0;
    for g in 0..c.generators {
        if site.grid.word(Part::GeneratorFlags, g) != 0 {
            put_all(
                sink,
                opf.sides(OpfRow::GenUb, OpfRow::GenLb, rank, OpfColumn::Pg, g),
            );
            rank += 1;
        }
    }
    // The sheds' limits.
    let mut shed = 0;
    for s in 0..c.buses {
        if sheds_at(&site.grid.plan, s) {
            put_all(
                sink,
                opf.sides(OpfRow::ShedUb, OpfRow::ShedLb, shed, OpfColumn::Shed, shed),
            );
            shed += 1;
        }
    }
    // The cost segments.
    let mut piece = 0;
    let mut start = 0;
    for h in 0..c.generators {
        let count = site.grid.word(Part::Segments, h);
        put_segments(&opf, h, piece, start, count, sink);
        piece = next_piece(piece, count);
        start += count;
    }
    // The linear rows.
    let mut equal = 0;
    let mut unequal = 0;
    let mut start = 0;
    for q in 0..c.rows {
        let limits = row_limits(&site.grid.plan, q);
        let row = LinearRow {
            site: linear,
            q,
            start,
        };
        put_linear(&row, equal, unequal, sink);
        equal += equalities_of(limits);
        unequal += inequalities_of(limits);
        start += site.grid.plan.row_terms(q);
    }
}

// P's triplets: zero values dropped. It asks for the readings alone: a plan would ask for the wiring too.
#[inline(always)]
pub fn put_p(readings: &[f64], c: Counts, lay: OpfLayout, sink: &mut Sink<'_>)
    requires readings_laid { ReadingsLaid c readings.now }
    requires narrow { Narrow lay }
    requires empty { sink.old.count ≡ 0 }
    ensures puts { (a : Active) → Placed c a lay → Gains (quad_triplets c a (reading c readings.now) blank) sink.old sink.new }
    ensures most { sink.new.count ≤ c.generators }
{
    let to = c.generators;
    for j in 0..to {
        let v = 2.0 * reading(readings, c, Field::Cq, j);
        sink.put(quad(lay.column(OpfColumn::Pg) + j, v));
    }
}
