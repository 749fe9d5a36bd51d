// sens/dc.rs: a solution snapped to strict complementarity, figure by figure.
#![tactic(auto)]

ghost use Rattle.std.specs.Prelude.{◌≡◌, cond, ◌<◌};
ghost use Rattle.std.specs.Float.{binary64};
ghost use Rattle.std.specs.Float.Ieee.{lt, le, sub};
ghost use Rattle.float64.specs.Values.{nought, tolerance, max_zero};
ghost use Rattle.network.specs.declared.Part.TheVariants.{BrFrom, BrTo};
ghost use Rattle.network.specs.Layout.{ReadingsLaid, wire, reading};
ghost use Rattle.network.specs.Numbers.{Wired, Termed};
ghost use Rattle.solution.specs.Sheet.{size, solved, SheetLaid};
ghost use Rattle.snapping.specs.States.{bus_state, limit_state, limit_value};
ghost use Rattle.snapping.specs.Expr.{eval};
ghost use Rattle.snapping.specs.Snap.{cap_of, shed_of, mu_lb_of, mu_ub_of, angle, gamma_ub_of, gamma_lb_of, segment_slack, segment_dual, row_value, duals, signed, snapped_at};

use kkt_index::KktIdx;
use model::RowLimits;
use model::rows::row_limits;
use model::terms::evaluate_at;
use model::withdrawal::shed_cap_at;
use network::layout::{reading, word};
use network::{Counts, Field, Part, Plan};
use solution::{Entry, OperatingPoint, PointSite, solved_at};

// The state in which a bus is found.
#[derive(Clone, Copy)]
pub enum BusState {
    Fixed,
    AtZero,
    AtCap,
    Between,
}

// The state in which an inequality is found: slack above the tolerance, or its dual not positive, or kept.
#[derive(Clone, Copy)]
pub enum LimitState {
    Slack,
    NotPositive,
    Kept,
}

// The snapped multipliers of one linear row.
#[derive(Clone, Copy)]
pub struct LinearDuals {
    pub upper: f64,
    pub lower: f64,
    pub equality: f64,
}

impl LinearDuals {
    // The signed multiplier that the row adds to stationarity: a coefficient times this.
    pub fn signed(self) -> f64
        ensures { result ≡ signed self }
    {
        self.upper - self.lower + self.equality
    }
}

// A bus by its cap and its shed, in the order of the tests.
pub fn bus_state(cap: f64, shed: f64) -> BusState
    ensures { result ≡ bus_state cap shed }
{
    let tol = KktIdx::snap_tol();
    if cap < tol {
        return BusState::Fixed;
    }
    if shed < tol {
        return BusState::AtZero;
    }
    if cap - shed < tol {
        return BusState::AtCap;
    }
    BusState::Between
}

// An angle limit or a cost segment by its slack and its dual.
pub fn limit_state(slack: f64, dual: f64) -> LimitState
    ensures { result ≡ limit_state slack dual }
{
    if slack > KktIdx::snap_tol() {
        return LimitState::Slack;
    }
    if dual > 0.0 {
        return LimitState::Kept;
    }
    LimitState::NotPositive
}

// The dual that is left: only a kept one.
fn limit_value(slack: f64, dual: f64) -> f64
    ensures { result ≡ limit_value (limit_state slack dual) dual }
{
    match limit_state(slack, dual) {
        LimitState::Slack => 0.0,
        LimitState::NotPositive => 0.0,
        LimitState::Kept => dual,
    }
}

// Whether bus i is fixed: it has nothing to shed.
pub fn is_fixed_zero_shed(plan: &Plan<'_>, i: usize) -> bool
    requires { i < plan.now.counts.buses }
    ensures { (S : _) → result ≡ lt (eval (reading plan.now.counts plan.now.readings.now) S (cap_of plan.now.wiring.now i)) tolerance }
{
    shed_cap_at(plan, i) < KktIdx::snap_tol()
}

// The shed of bus i.
// Here and in the next two: a plan and the sheet; an operating point would ask that the wiring's indexes hold.
pub fn shed_of(plan: &Plan<'_>, sheet: &[f64], p: usize, i: usize) -> f64
    requires sheet_laid { SheetLaid plan.now.counts p sheet.now }
    requires i_lt_buses { i < plan.now.counts.buses }
    ensures { result ≡ eval (reading plan.now.counts plan.now.readings.now) (solved plan.now.counts p sheet.now) (shed_of plan.now.wiring.now i) }
{
    let cap = shed_cap_at(plan, i);
    let shed = solved_at(sheet, plan.counts, p, Entry::Psh, i);
    match bus_state(cap, shed) {
        BusState::Fixed => 0.0,
        BusState::AtZero => 0.0,
        BusState::AtCap => cap,
        BusState::Between => shed,
    }
}

// The dual of bus i's lower shed bound. At a fixed bus the two bounds are one, and their duals are folded.
pub fn mu_lb_of(plan: &Plan<'_>, sheet: &[f64], p: usize, i: usize) -> f64
    requires sheet_laid { SheetLaid plan.now.counts p sheet.now }
    requires i_lt_buses { i < plan.now.counts.buses }
    ensures { result ≡ eval (reading plan.now.counts plan.now.readings.now) (solved plan.now.counts p sheet.now) (mu_lb_of plan.now.wiring.now i) }
{
    let cap = shed_cap_at(plan, i);
    let shed = solved_at(sheet, plan.counts, p, Entry::Psh, i);
    let lower = solved_at(sheet, plan.counts, p, Entry::MuLb, i);
    let upper = solved_at(sheet, plan.counts, p, Entry::MuUb, i);
    match bus_state(cap, shed) {
        BusState::Fixed => lower - upper,
        BusState::AtZero => lower,
        BusState::AtCap => 0.0,
        BusState::Between => 0.0,
    }
}

// The dual of bus i's upper shed bound.
pub fn mu_ub_of(plan: &Plan<'_>, sheet: &[f64], p: usize, i: usize) -> f64
    requires sheet_laid { SheetLaid plan.now.counts p sheet.now }
    requires i_lt_buses { i < plan.now.counts.buses }
    ensures { result ≡ eval (reading plan.now.counts plan.now.readings.now) (solved plan.now.counts p sheet.now) (mu_ub_of plan.now.wiring.now i) }
{
    let cap = shed_cap_at(plan, i);
    let shed = solved_at(sheet, plan.counts, p, Entry::Psh, i);
    let upper = solved_at(sheet, plan.counts, p, Entry::MuUb, i);
    match bus_state(cap, shed) {
        BusState::Fixed => 0.0,
        BusState::AtZero => 0.0,
        BusState::AtCap => upper,
        BusState::Between => 0.0,
    }
}

// A bus entry's word at branch e's from end less that at its to end.
// Here and in `angle`: the wiring and the sheet alone; an operating point would ask for the readings too.
pub fn across(wiring: &[u32], sheet: &[f64], c: Counts, p: usize, of: Entry, e: usize) -> f64
    requires wired { Wired c wiring.now }
    requires sheet_laid { SheetLaid c p sheet.now }
    requires e_lt_branches { (e < c.branches) × (size c p of ≡ c.buses) }
    ensures { result ≡ sub binary64 (solved c p sheet.now of (wire c wiring.now BrFrom e)) (solved c p sheet.now of (wire c wiring.now BrTo e)) }
{
    let from = word(wiring, c, Part::BrFrom, e);
    let to = word(wiring, c, Part::BrTo, e);
    solved_at(sheet, c, p, of, from) - solved_at(sheet, c, p, of, to)
}

// The angle across branch e.
pub fn angle(wiring: &[u32], sheet: &[f64], c: Counts, p: usize, e: usize) -> f64
    requires wired { Wired c wiring.now }
    requires sheet_laid { SheetLaid c p sheet.now }
    requires e_lt_branches { e < c.branches }
    ensures { (R : _) → result ≡ eval R (solved c p sheet.now) (angle c wiring.now e) }
{
    across(wiring, sheet, c, p, Entry::Va, e)
}

// The dual of branch e's upper angle limit.
pub fn gamma_ub_of(point: &OperatingPoint<'_>, e: usize) -> f64
    requires { e < point.now.grid.plan.counts.branches }
    ensures { result ≡ eval (reading point.now.grid.plan.counts point.now.grid.plan.readings.now) (solved point.now.grid.plan.counts point.now.pieces point.now.sheet.now) (gamma_ub_of point.now.grid.plan.counts point.now.grid.plan.wiring.now e) }
{
    let slack = point.grid.reading(Field::Angmax, e)
        - angle(
            point.grid.plan.wiring,
            point.sheet,
            point.grid.plan.counts,
            point.pieces,
            e,
        );
    limit_value(slack, point.value(Entry::GammaUb, e))
}

// The dual of branch e's lower angle limit.
pub fn gamma_lb_of(point: &OperatingPoint<'_>, e: usize) -> f64
    requires { e < point.now.grid.plan.counts.branches }
    ensures { result ≡ eval (reading point.now.grid.plan.counts point.now.grid.plan.readings.now) (solved point.now.grid.plan.counts point.now.pieces point.now.sheet.now) (gamma_lb_of point.now.grid.plan.counts point.now.grid.plan.wiring.now e) }
{
    let slack = angle(
        point.grid.plan.wiring,
        point.sheet,
        point.grid.plan.counts,
        point.pieces,
        e,
    ) - point.grid.reading(Field::Angmin, e);
    limit_value(slack, point.value(Entry::GammaLb, e))
}

// The slack of segment s of generator j, whose epigraph is the sheet's word g.
// Here and in `segment_dual`: the readings and the sheet alone; an operating point would ask for the wiring too.
pub fn segment_slack(
    readings: &[f64],
    sheet: &[f64],
    c: Counts,
    p: usize,
    j: usize,
    g: usize,
    s: usize,
) -> f64
    requires readings_laid { ReadingsLaid c readings.now }
    requires sheet_laid { SheetLaid c p sheet.now }
    requires j_lt_generators { (j < c.generators) × (g < p) × (s < c.segments) }
    ensures { result ≡ eval (reading c readings.now) (solved c p sheet.now) (segment_slack j g s) }
{
    solved_at(sheet, c, p, Entry::Epigraph, g)
        - reading(readings, c, Field::Slopes, s) * solved_at(sheet, c, p, Entry::Pg, j)
        - reading(readings, c, Field::Intercepts, s)
}

// The dual of segment s of generator j.
pub fn segment_dual(
    readings: &[f64],
    sheet: &[f64],
    c: Counts,
    p: usize,
    j: usize,
    g: usize,
    s: usize,
) -> f64
    requires readings_laid { ReadingsLaid c readings.now }
    requires sheet_laid { SheetLaid c p sheet.now }
    requires j_lt_generators { (j < c.generators) × (g < p) × (s < c.segments) }
    ensures { result ≡ eval (reading c readings.now) (solved c p sheet.now) (segment_dual j g s) }
{
    let slack = segment_slack(readings, sheet, c, p, j, g, s);
    limit_value(slack, solved_at(sheet, c, p, Entry::SegmentDual, s))
}

// The value of linear row q at the sheet's flows and dispatch.
// It asks for the wiring, the terms and the sheet alone: an operating point would ask for the readings too.
pub fn row_value(
    wiring: &[u32],
    term_index: &[u32],
    term_coefficient: &[f64],
    sheet: &[f64],
    c: Counts,
    p: usize,
    q: usize,
) -> f64
    requires wired { Wired c wiring.now }
    requires termed { Termed c wiring.now term_index.now term_coefficient.now }
    requires sheet_laid { SheetLaid c p sheet.now }
    requires q_lt_rows { q < c.rows }
    ensures { (R : _) → result ≡ eval R (solved c p sheet.now) (row_value c wiring.now term_index.now term_coefficient.now q) }
{
    let n = c.buses;
    let m = c.branches;
    let k = c.generators;
    let f = &sheet[n + k..n + k + m];
    let pg = &sheet[n..n + k];
    evaluate_at(wiring, c, term_index, term_coefficient, q, f, pg)
}

// What is left of an inequality's dual: kept up to the tolerance.
fn binding_dual(slack: f64, dual: f64) -> f64
    ensures { result ≡ cond (le slack tolerance) (max_zero dual) nought }
{
    if slack <= KktIdx::snap_tol() {
        return float64::max_zero(dual);
    }
    0.0
}

// The snapped multipliers of linear row q.
#[inline(always)]
pub fn snap_linear_at(site: &PointSite<'_>, q: usize) -> LinearDuals
    requires { q < site.now.point.grid.plan.counts.rows }
    ensures { result ≡ duals site.now.point.grid.plan.counts site.now.point.grid.plan.wiring.now site.now.term_index.now site.now.term_coefficient.now site.now.point.pieces site.now.point.grid.plan.readings.now site.now.point.sheet.now q }
{
    let point = &site.point;
    let value = row_value(
        point.grid.plan.wiring,
        site.term_index,
        site.term_coefficient,
        point.sheet,
        point.grid.plan.counts,
        point.pieces,
        q,
    );
    let base = point.grid.reading(Field::BaseMva, 0);
    let dual = point.value(Entry::LinearDual, q);
    match row_limits(&point.grid.plan, q) {
        RowLimits::None => LinearDuals {
            upper: 0.0,
            lower: 0.0,
            equality: 0.0,
        },
        RowLimits::Upper(upper) => LinearDuals {
            upper: binding_dual(upper / base - value, dual),
            lower: 0.0,
            equality: 0.0,
        },
        RowLimits::Lower(lower) => LinearDuals {
            upper: 0.0,
            lower: binding_dual(value - lower / base, -dual),
            equality: 0.0,
        },
        RowLimits::Both(upper, lower) => LinearDuals {
            upper: binding_dual(upper / base - value, dual),
            lower: binding_dual(value - lower / base, -dual),
            equality: 0.0,
        },
        RowLimits::Equal(_) => LinearDuals {
            upper: 0.0,
            lower: 0.0,
            equality: dual,
        },
    }
}

// Word i of an entry of the snapped sheet, segment duals aside.
pub fn snapped_at(point: &OperatingPoint<'_>, e: Entry, i: usize) -> f64
    requires { i < Rattle.solution.specs.Sheet.size point.now.grid.plan.counts point.now.pieces e }
    ensures { result ≡ eval (reading point.now.grid.plan.counts point.now.grid.plan.readings.now) (solved point.now.grid.plan.counts point.now.pieces point.now.sheet.now) (snapped_at point.now.grid.plan.counts point.now.grid.plan.wiring.now e i) }
{
    match e {
        Entry::Psh => shed_of(&point.grid.plan, point.sheet, point.pieces, i),
        Entry::MuUb => mu_ub_of(&point.grid.plan, point.sheet, point.pieces, i),
        Entry::MuLb => mu_lb_of(&point.grid.plan, point.sheet, point.pieces, i),
        Entry::GammaUb => gamma_ub_of(point, i),
        Entry::GammaLb => gamma_lb_of(point, i),
        Entry::Va
        | Entry::Pg
        | Entry::Flow
        | Entry::NuBal
        | Entry::LamUb
        | Entry::LamLb
        | Entry::RhoUb
        | Entry::RhoLb
        | Entry::Epigraph
        | Entry::SegmentDual
        | Entry::LinearDual
        | Entry::LinearValue
        | Entry::Objective => point.value(e, i),
    }
}
