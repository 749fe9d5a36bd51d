// The solution sheet that a solver's raw vectors give: problem/dc.rs, `read_dc_solution`.
#![tactic(auto)]

ghost use Rattle.std.specs.Prelude.{◌≡◌, ℕ, Bool, ◌≤◌, ◌<◌, length, drop};
ghost use Rattle.float64.specs.Values.{nought};
ghost use Rattle.sequence.specs.Lists.{made, front};
ghost use Rattle.network.specs.declared.Field.TheVariants.{CShed};
ghost use Rattle.network.specs.Layout.{part_size};
ghost use Rattle.model.specs.Rows.{row_limits};
ghost use Rattle.model.specs.Quantities.{evaluate};
ghost use Rattle.solution.specs.Sheet.{size, sheet_length};
ghost use Rattle.opf_layout.specs.Layout.{active_rank, flagged, sheds, equalities, inequalities, equality_rank, inequality_rank, column_size, row_size};
ghost use Rattle.opf_readback.specs.Walks.{Tells, Gives, turned_at, picked_at, lower_at, signed_of, cost_sum, objective_of};
ghost use Rattle.opf_readback.specs.Points.{columns_at, rows_at, pieces_in, entry_words_at, sheet_at};

use model::RowLimits;
use model::cost::generator_cost_at;
use model::rows::row_limits;
use model::terms::evaluate_at;
use network::{Counts, Field, Grid, Part, Plan, Site};
use opf_layout::{Active, OpfColumn, OpfRow, RawPoint, equalities_of, inequalities_of, sheds_at};
use solution::{Entry, entry_size};

// How many columns a block has.
fn column_size(c: Counts, a: Active, b: OpfColumn) -> usize
    ensures { result ≡ column_size c a b }
{
    match b {
        OpfColumn::Va => c.buses,
        OpfColumn::Pg => c.generators,
        OpfColumn::Flow => c.branches,
        OpfColumn::Shed => a.sheds,
        OpfColumn::Cost => a.pieces,
    }
}

// How many rows a block has.
fn row_size(c: Counts, a: Active, b: OpfRow) -> usize
    ensures { result ≡ row_size c a b }
{
    match b {
        OpfRow::Balance => c.buses,
        OpfRow::FlowRow => c.branches,
        OpfRow::Reference => c.references,
        OpfRow::LineUb | OpfRow::LineLb => a.lines,
        OpfRow::GenUb | OpfRow::GenLb => a.generators,
        OpfRow::ShedUb | OpfRow::ShedLb => a.sheds,
        OpfRow::PhaseUb | OpfRow::PhaseLb => a.phases,
        OpfRow::Segment => c.segments,
        OpfRow::LinearEqual => a.equalities,
        OpfRow::LinearLimit => a.inequalities,
    }
}

// The words of x at a block of columns.
fn columns<'a>(point: &RawPoint<'a>, b: OpfColumn) -> &'a [f64]
    ensures { result.now ≡ columns_at point.now b }
{
    let from = point.lay.column(b);
    let size = column_size(point.site.grid.plan.counts, point.lay.active, b);
    &point.raw.x[from..from + size]
}

// The words of z at a block of rows.
fn rows<'a>(point: &RawPoint<'a>, b: OpfRow) -> &'a [f64]
    ensures { result.now ≡ rows_at point.now b }
{
    let from = point.lay.row(b);
    let size = row_size(point.site.grid.plan.counts, point.lay.active, b);
    &point.raw.z[from..from + size]
}

// A block with each sign turned.
fn put_turned(block: &[f64], out: &mut [f64])
    requires { length block.now ≡ length out.old }
    ensures { out.new ≡ made (turned_at block.now) (length out.old) }
{
    for (i, word) in out.iter_mut().enumerate() {
        *word = -block[i];
    }
}

// At each active index the next word of a block, at another the value given for it.
fn put_picked<A: Fn(usize) -> bool, O: Fn(usize) -> f64>(
    active: A,
    block: &[f64],
    other: O,
    out: &mut [f64],
)
    requires active_callable { (i : ℕ) → i < length out.old → A.pre active i }
    requires other_callable { (i : ℕ) → i < length out.old → O.pre other i }
    requires block_long { (on : ℕ → Bool) × Tells (A.post active) on × (active_rank on (length out.old) ≤ length block.now) }
    ensures { (on : _) (f : _) → Tells (A.post active) on → Gives (O.post other) f → out.new ≡ made (picked_at on block.now f) (length out.old) }
{
    let mut k = 0;
    for (i, word) in out.iter_mut().enumerate() {
        if active(i) {
            *word = block[k];
            k += 1;
        } else {
            *word = other(i);
        }
    }
}

// The words of a limit's block at the elements whose flag is set, 0 at the others.
fn put_flagged(plan: &Plan<'_>, part: Part, block: &[f64], out: &mut [f64])
    requires out_long { length out.old ≡ part_size plan.now.counts part }
    requires block_long { active_rank (flagged plan.now.counts plan.now.wiring.now part) (length out.old) ≤ length block.now }
    ensures { out.new ≡ made (picked_at (flagged plan.now.counts plan.now.wiring.now part) block.now (λ i. nought)) (length out.old) }
{
    let flag = |i: usize|
        requires { i < part_size plan.now.counts part }
        ensures { result ≡ flagged plan.entry.now.counts plan.entry.now.wiring.now part i }
    { plan.word(part, i) != 0 };
    put_picked(flag, block, |_| 0.0, out);
}

// The words of a block at the buses that have a shed column, 0 at the others.
fn put_sheds(plan: &Plan<'_>, block: &[f64], out: &mut [f64])
    requires out_long { length out.old ≡ plan.now.counts.buses }
    requires block_long { active_rank (sheds plan.now.counts plan.now.wiring.now plan.now.readings.now) (length out.old) ≤ length block.now }
    ensures { out.new ≡ made (picked_at (sheds plan.now.counts plan.now.wiring.now plan.now.readings.now) block.now (λ i. nought)) (length out.old) }
{
    put_picked(|i| sheds_at(plan, i), block, |_| 0.0, out);
}

// The sheds' lower duals: their rows', and c_shed minus nu_bal where there is none.
fn put_lower(plan: &Plan<'_>, balance: &[f64], block: &[f64], out: &mut [f64])
    requires out_long { length out.old ≡ plan.now.counts.buses }
    requires balance_long { length balance.now ≡ length out.old }
    requires block_long { active_rank (sheds plan.now.counts plan.now.wiring.now plan.now.readings.now) (length out.old) ≤ length block.now }
    ensures { out.new ≡ made (picked_at (sheds plan.now.counts plan.now.wiring.now plan.now.readings.now) block.now (lower_at plan.now.counts plan.now.readings.now balance.now)) (length out.old) }
{
    let without = |i: usize|
        requires { (i < plan.now.counts.buses) × (i < length balance.now) }
        ensures { result ≡ lower_at plan.entry.now.counts plan.entry.now.readings.now balance.entry.now i }
    { plan.reading(Field::CShed, i) - (-balance[i]) };
    put_picked(|i| sheds_at(plan, i), block, without, out);
}

// The signed dual of a row whose equality and whose limits stand at the front of two blocks.
fn signed_of(limits: RowLimits, equal: &[f64], limit: &[f64]) -> f64
    requires { (equalities limits ≤ length equal.now) × (inequalities limits ≤ length limit.now) }
    ensures { result ≡ signed_of limits equal.now limit.now }
{
    match limits {
        RowLimits::None => 0.0 + 0.0 - 0.0,
        RowLimits::Upper(_) => 0.0 + limit[0] - 0.0,
        RowLimits::Lower(_) => 0.0 + 0.0 - limit[0],
        RowLimits::Both(_, _) => 0.0 + limit[0] - limit[1],
        RowLimits::Equal(_) => equal[0] + 0.0 - 0.0,
    }
}

// The linear rows' signed duals.
fn put_duals(plan: &Plan<'_>, equal: &[f64], limit: &[f64], out: &mut [f64])
    requires out_long { length out.old ≡ plan.now.counts.rows }
    requires equal_long { equality_rank plan.now.counts plan.now.wiring.now plan.now.readings.now plan.now.counts.rows ≤ length equal.now }
    requires limit_long { inequality_rank plan.now.counts plan.now.wiring.now plan.now.readings.now plan.now.counts.rows ≤ length limit.now }
    ensures { out.new ≡ made (λ q. signed_of (row_limits plan.now.counts plan.now.wiring.now plan.now.readings.now q) (drop (equality_rank plan.now.counts plan.now.wiring.now plan.now.readings.now q) equal.now) (drop (inequality_rank plan.now.counts plan.now.wiring.now plan.now.readings.now q) limit.now)) (length out.old) }
{
    let mut k = 0;
    let mut l = 0;
    for (q, word) in out.iter_mut().enumerate() {
        let limits = row_limits(plan, q);
        *word = signed_of(limits, &equal[k..], &limit[l..]);
        k += equalities_of(limits);
        l += inequalities_of(limits);
    }
}

// The linear rows' values at flows f and dispatch pg.
fn put_values(site: &Site<'_>, f: &[f64], pg: &[f64], out: &mut [f64])
    requires f_len { (length f.now ≡ site.now.grid.plan.counts.branches) × (length pg.now ≡ site.now.grid.plan.counts.generators) }
    requires out_long { length out.old ≡ site.now.grid.plan.counts.rows }
    ensures { out.new ≡ made (λ q. evaluate site.now.grid.plan.counts site.now.grid.plan.wiring.now site.now.term_index.now site.now.term_coefficient.now q f.now pg.now) (length out.old) }
{
    for (q, word) in out.iter_mut().enumerate() {
        *word = evaluate_at(
            site.grid.plan.wiring,
            site.grid.plan.counts,
            site.term_index,
            site.term_coefficient,
            q,
            f,
            pg,
        );
    }
}

// The generators' cost at a dispatch.
fn cost_sum(grid: &Grid<'_>, pg: &[f64]) -> f64
    requires { length pg.now ≡ grid.now.plan.counts.generators }
    ensures { result ≡ cost_sum grid.now.plan.counts grid.now.plan.wiring.now grid.now.plan.readings.now pg.now (length pg.now) }
{
    let mut sum = 0.0;
    for (j, power) in pg.iter().enumerate() {
        sum += generator_cost_at(grid, j, *power);
    }
    sum
}

// The declared objective: none, the generators' cost, or the solver's own. The test of a network asks only that the
// wiring's word is no more than 2; what it stands for is said here alone, so a match on it is as plain as one on an enum.
fn objective_of(grid: &Grid<'_>, pg: &[f64], raw: f64) -> f64
    requires { length pg.now ≡ grid.now.plan.counts.generators }
    ensures { result ≡ objective_of grid.now.plan.counts grid.now.plan.wiring.now grid.now.plan.readings.now pg.now raw }
{
    match grid.plan.wiring[8] {
        0 => 0.0,
        1 => cost_sum(grid, pg),
        _ => raw,
    }
}

// An entry's words.
fn put_entry(point: &RawPoint<'_>, e: Entry, out: &mut [f64])
    requires { length out.old ≡ size point.now.site.grid.plan.counts (pieces_in point.now) e }
    ensures { out.new ≡ entry_words_at point.now e }
{
    let plan = &point.site.grid.plan;
    match e {
        Entry::Va => out.copy_from_slice(columns(point, OpfColumn::Va)),
        Entry::Pg => out.copy_from_slice(columns(point, OpfColumn::Pg)),
        Entry::Flow => out.copy_from_slice(columns(point, OpfColumn::Flow)),
        Entry::Psh => put_sheds(plan, columns(point, OpfColumn::Shed), out),
        Entry::NuBal => put_turned(rows(point, OpfRow::Balance), out),
        Entry::LamUb => put_flagged(plan, Part::ThermalFlags, rows(point, OpfRow::LineUb), out),
        Entry::LamLb => put_flagged(plan, Part::ThermalFlags, rows(point, OpfRow::LineLb), out),
        Entry::RhoUb => put_flagged(plan, Part::GeneratorFlags, rows(point, OpfRow::GenUb), out),
        Entry::RhoLb => put_flagged(plan, Part::GeneratorFlags, rows(point, OpfRow::GenLb), out),
        Entry::MuUb => put_sheds(plan, rows(point, OpfRow::ShedUb), out),
        Entry::MuLb => put_lower(
            plan,
            rows(point, OpfRow::Balance),
            rows(point, OpfRow::ShedLb),
            out,
        ),
        Entry::GammaUb => put_flagged(plan, Part::AngleFlags, rows(point, OpfRow::PhaseUb), out),
        Entry::GammaLb => put_flagged(plan, Part::AngleFlags, rows(point, OpfRow::PhaseLb), out),
        Entry::Epigraph => out.copy_from_slice(columns(point, OpfColumn::Cost)),
        Entry::SegmentDual => out.copy_from_slice(rows(point, OpfRow::Segment)),
        Entry::LinearDual => put_duals(
            plan,
            rows(point, OpfRow::LinearEqual),
            rows(point, OpfRow::LinearLimit),
            out,
        ),
        Entry::LinearValue => put_values(
            &point.site,
            columns(point, OpfColumn::Flow),
            columns(point, OpfColumn::Pg),
            out,
        ),
        Entry::Objective => {
            out[0] = objective_of(
                &point.site.grid,
                columns(point, OpfColumn::Pg),
                point.raw.objective,
            );
        }
    }
}

// The whole sheet into the front of another.
pub fn read_into(point: &RawPoint<'_>, out: &mut [f64])
    requires { sheet_length point.now.site.grid.plan.counts (pieces_in point.now) ≤ length out.old }
    ensures out_after { out.new ≡ front (sheet_at point.now) out.old }
    ensures raw_len { length (sheet_at point.now) ≡ sheet_length point.now.site.grid.plan.counts (pieces_in point.now) }
    ensures out_len_unchanged { length out.new ≡ length out.old }
{
    let mut at = 0;
    for e in Entry::ALL {
        let end = at + entry_size(point.site.grid.plan.counts, point.lay.active.pieces, *e);
        put_entry(point, *e, &mut out[at..end]);
        at = end;
    }
}
