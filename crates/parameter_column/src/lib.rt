// sens/dc.rs, `parameter_jacobian`: one column, the partial of the KKT residual in one parameter.
#![tactic(auto)]

pub mod column;

ghost use Rattle.std.specs.Prelude.{◌≡◌, List, [], ◌∷◌, ℕ, ◌+◌, ◌<◌, ◌≤◌, Float};
ghost use Rattle.network.specs.Layout.{reading};
ghost use Rattle.solution.specs.Sheet.{SheetLaid};
ghost use Rattle.kkt_index.specs.Index.{rows_of, linear_start, linear_row_count};
ghost use Rattle.snapping.specs.Expr.{eval, none, unit};
ghost use Rattle.snapping.specs.Snap.{if_fixed};
ghost use Rattle.parameter_column.specs.declared.Served.TheVariants.{Demand, CostQuadratic, LineLimit, BranchSusceptance, Switching, ConstraintLimit};
ghost use Rattle.parameter_column.specs.Columns.{touch, touches, gamma_across, gamma_marks};
ghost use Rattle.parameter_column.specs.Points.{touches_at, valued_at, value_at, flow_dual};
ghost use Rattle.parameter_column.specs.Walks.{rows_in, weight_touches, shift_touches};
ghost use Rattle.parameter_column.specs.Moves.{Moves};

use column::Column;
use kkt_index::{Block, rows_of};
use model::RowLimits;
use model::rows::row_limits;
use network::layout::{reading, word};
use network::{Field, Grid, Part, Plan};
use snapping::{
    LinearDuals, across, angle, gamma_lb_of, gamma_ub_of, is_fixed_zero_shed, mu_ub_of,
    snap_linear_at,
};
use solution::{Entry, OperatingPoint, PointSite, solved_at};

// What is done with a word of a column. The definitions say it of each word, beside its row and its value, so it is a
// part of what a column is, and `touch` is the one place that runs it.
#[derive(Clone, Copy, Debug, PartialEq, Eq)]
pub enum How {
    Put,
    Plus,
    Less,
}

// The parameters that are served.
#[derive(Clone, Copy, Debug, PartialEq, Eq)]
pub enum Served {
    Demand,
    CostQuadratic,
    CostLinear,
    LineLimit,
    BranchSusceptance,
    Switching,
    ConstraintLimit,
}

impl Column<'_> {
    // One word.
    pub fn touch(&mut self, b: Block, i: usize, how: How, v: f64)
        requires { i < rows_in self.old.counts self.old.index b }
        ensures { Moves (touch b i how v ∷ []) self.old self.new }
    {
        let at = self.index.start(b) + i;
        let word = self.words[at];
        self.words[at] = match how {
            How::Put => v,
            How::Plus => word + v,
            How::Less => word - v,
        };
    }
}

// 1 where the cap moves with the demand, 0 at a fixed bus.
fn cap_rate(plan: &Plan<'_>, i: usize) -> f64
    requires { i < plan.now.counts.buses }
    ensures { (S : _) → result ≡ eval (reading plan.now.counts plan.now.readings.now) S (if_fixed plan.now.wiring.now i none unit) }
{
    if is_fixed_zero_shed(plan, i) {
        0.0
    } else {
        1.0
    }
}

// Bus i's demand: its balance, and its cap.
pub fn demand_column(point: &OperatingPoint<'_>, i: usize, column: &mut Column<'_>)
    requires same_counts { column.old.counts ≡ point.now.grid.plan.counts }
    requires i_lt_buses { i < point.now.grid.plan.counts.buses }
    ensures { (ti : List ℕ) (tc : List Float) → Moves (touches_at point.now ti tc Demand i) column.old column.new }
{
    let mu = mu_ub_of(&point.grid.plan, point.sheet, point.pieces, i)
        * cap_rate(&point.grid.plan, i);
    column.touch(Block::NuBal, i, How::Put, -1.0);
    column.touch(Block::MuUb, i, How::Put, mu);
}

// Generator j's quadratic cost: twice its power.
// Here and in `limit_column`: the sheet alone; an operating point would ask for a grid too.
pub fn quadratic_column(solution: &[f64], j: usize, column: &mut Column<'_>)
    requires sheet_laid { SheetLaid column.old.counts column.old.index.pieces solution.now }
    requires j_lt_generators { j < column.old.counts.generators }
    ensures { (w ti : List ℕ) (tc r : List Float) → Moves (touches column.old.counts w ti tc column.old.index.pieces r solution.now CostQuadratic j) column.old column.new }
{
    column.touch(
        Block::Pg,
        j,
        How::Put,
        2.0 * solved_at(solution, column.counts, column.index.pieces, Entry::Pg, j),
    );
}

// Branch e's thermal limit: both complementarity rows.
pub fn limit_column(solution: &[f64], e: usize, column: &mut Column<'_>)
    requires sheet_laid { SheetLaid column.old.counts column.old.index.pieces solution.now }
    requires e_lt_branches { e < column.old.counts.branches }
    ensures { (w ti : List ℕ) (tc r : List Float) → Moves (touches column.old.counts w ti tc column.old.index.pieces r solution.now LineLimit e) column.old column.new }
{
    let c = column.counts;
    let p = column.index.pieces;
    let lower = solved_at(solution, c, p, Entry::LamLb, e);
    let upper = solved_at(solution, c, p, Entry::LamUb, e);
    column.touch(Block::LamLb, e, How::Put, lower);
    column.touch(Block::LamUb, e, How::Put, upper);
}

// What a branch's weight moves: both balances, the flow definition, both angles' stationarity.
fn weight_column(
    grid: &Grid<'_>,
    e: usize,
    flow: f64,
    at_from: f64,
    at_to: f64,
    column: &mut Column<'_>,
)
    requires same_counts { column.old.counts ≡ grid.now.plan.counts }
    requires e_lt_branches { e < grid.now.plan.counts.branches }
    ensures { Moves (weight_touches grid.now.plan.counts grid.now.plan.wiring.now e flow at_from at_to) column.old column.new }
{
    let from = grid.word(Part::BrFrom, e);
    let to = grid.word(Part::BrTo, e);
    column.touch(Block::NuBal, from, How::Plus, flow);
    column.touch(Block::NuBal, to, How::Less, flow);
    column.touch(Block::NuFlow, e, How::Plus, flow);
    column.touch(Block::Va, from, How::Plus, at_from);
    column.touch(Block::Va, to, How::Plus, at_to);
}

// Branch e's susceptance, by its flow's dual.
pub fn susceptance_column(point: &OperatingPoint<'_>, e: usize, dual: f64, column: &mut Column<'_>)
    requires same_counts { column.old.counts ≡ point.now.grid.plan.counts }
    requires e_lt_branches { e < point.now.grid.plan.counts.branches }
    ensures { (ti : List ℕ) (tc : List Float) → dual ≡ flow_dual point.now ti tc e → Moves (touches_at point.now ti tc BranchSusceptance e) column.old column.new }
{
    let c = point.grid.plan.counts;
    let w = point.grid.plan.wiring;
    let dth = angle(w, point.sheet, c, point.pieces, e);
    let dnu = across(w, point.sheet, c, point.pieces, Entry::NuBal, e);
    let sw = point.grid.reading(Field::Sw, e);
    let shift = point.grid.reading(Field::Shift, e);
    weight_column(
        &point.grid,
        e,
        sw * (dth - shift),
        -sw * dnu - sw * dual,
        sw * dnu + sw * dual,
        column,
    );
}

// What switching moves of branch e's angle limits.
fn gamma_column(point: &OperatingPoint<'_>, e: usize, column: &mut Column<'_>)
    requires same_counts { column.old.counts ≡ point.now.grid.plan.counts }
    requires e_lt_branches { e < point.now.grid.plan.counts.branches }
    ensures { Moves (valued_at point.now (gamma_marks point.now.grid.plan.counts point.now.grid.plan.wiring.now e)) column.old column.new }
{
    let c = point.grid.plan.counts;
    let dth = angle(point.grid.plan.wiring, point.sheet, c, point.pieces, e);
    let lower = gamma_lb_of(point, e) * (dth - point.grid.reading(Field::Angmin, e));
    let upper = gamma_ub_of(point, e) * (point.grid.reading(Field::Angmax, e) - dth);
    column.touch(Block::GammaLb, e, How::Plus, lower);
    column.touch(Block::GammaUb, e, How::Plus, upper);
}

// gamma_ub less gamma_lb, both snapped.
fn gamma_across(point: &OperatingPoint<'_>, e: usize) -> f64
    requires { e < point.now.grid.plan.counts.branches }
    ensures { result ≡ value_at point.now (gamma_across point.now.grid.plan.counts point.now.grid.plan.wiring.now e) }
{
    gamma_ub_of(point, e) - gamma_lb_of(point, e)
}

// Branch e's switching state, by its flow's dual.
pub fn switching_column(point: &OperatingPoint<'_>, e: usize, dual: f64, column: &mut Column<'_>)
    requires same_counts { column.old.counts ≡ point.now.grid.plan.counts }
    requires e_lt_branches { e < point.now.grid.plan.counts.branches }
    ensures { (ti : List ℕ) (tc : List Float) → dual ≡ flow_dual point.now ti tc e → Moves (touches_at point.now ti tc Switching e) column.old column.new }
{
    let c = point.grid.plan.counts;
    let w = point.grid.plan.wiring;
    let dth = angle(w, point.sheet, c, point.pieces, e);
    let dnu = across(w, point.sheet, c, point.pieces, Entry::NuBal, e);
    let g = gamma_across(point, e);
    let b = point.grid.reading(Field::Susceptance, e);
    let offset = point.grid.reading(Field::FlowOffset, e);
    weight_column(
        &point.grid,
        e,
        b * dth - offset,
        -b * dnu - b * dual + g,
        b * dnu + b * dual - g,
        column,
    );
    gamma_column(point, e, column);
}

// Where linear row q starts in its block.
fn linear_start(plan: &Plan<'_>, q: usize) -> usize
    requires { q < plan.now.counts.rows }
    ensures { (result ≡ linear_start plan.now.counts plan.now.wiring.now plan.now.readings.now q) × (result ≤ 128) }
{
    (0..q).map(|i| rows_of(row_limits(plan, i))).sum()
}

// A shift of linear row q's limits, by its multipliers, whose rows start at a place.
fn shift_column(start: usize, limits: RowLimits, d: LinearDuals, column: &mut Column<'_>)
    requires { (start + rows_of limits ≤ column.old.index.linear_rows) × (start ≤ 128) }
    ensures { Moves (shift_touches start d limits) column.old column.new }
{
    match limits {
        RowLimits::None => {}
        RowLimits::Upper(_) => {
            column.touch(Block::Linear, start, How::Put, d.upper);
        }
        RowLimits::Lower(_) => {
            column.touch(Block::Linear, start, How::Put, -d.lower);
        }
        RowLimits::Both(_, _) => {
            column.touch(Block::Linear, start, How::Put, d.upper);
            column.touch(Block::Linear, start + 1, How::Put, -d.lower);
        }
        RowLimits::Equal(_) => {
            column.touch(Block::Linear, start, How::Put, -1.0);
        }
    }
}

// A shift of linear row q's limits.
pub fn constraint_column(site: &PointSite<'_>, q: usize, column: &mut Column<'_>)
    requires same_counts { column.old.counts ≡ site.now.point.grid.plan.counts }
    requires q_lt_rows { (q < site.now.point.grid.plan.counts.rows) × (column.old.index.linear_rows ≡ linear_row_count site.now.point.grid.plan.counts site.now.point.grid.plan.wiring.now site.now.point.grid.plan.readings.now) }
    ensures { Moves (touches_at site.now.point site.now.term_index.now site.now.term_coefficient.now ConstraintLimit q) column.old column.new }
{
    let plan = &site.point.grid.plan;
    let limits = row_limits(plan, q);
    let d = snap_linear_at(site, q);
    shift_column(linear_start(plan, q), limits, d, column);
}
