// problem/dc.rs, `OpfLayout`: where the columns and rows of the program stand.
#![tactic(auto)]

pub mod raw;

ghost use Rattle.std.specs.Prelude.{◌≡◌, ◌*◌, ◌≤◌, ◌<◌};
ghost use Rattle.network.specs.Layout.{part_size};
ghost use Rattle.opf_layout.specs.Layout.{active_rank, flagged, sheds, equalities, inequalities, equality_rank, inequality_rank, active_of, Bounded, Placed, Narrow, column_in, row_in};

use model::RowLimits;
use model::rows::row_limits;
use model::withdrawal::shed_cap_at;
use network::layout::part_size;
use network::{Counts, Part, Plan, Wiring};
pub use raw::{Raw, RawPoint};
use solution::piece_count;

// The columns of the program, in order.
#[derive(Clone, Copy)]
pub enum OpfColumn {
    Va,
    Pg,
    Flow,
    Shed,
    Cost,
}

// Its rows, in order.
#[derive(Clone, Copy)]
pub enum OpfRow {
    Balance,
    FlowRow,
    Reference,
    LineUb,
    LineLb,
    GenUb,
    GenLb,
    ShedUb,
    ShedLb,
    PhaseUb,
    PhaseLb,
    Segment,
    LinearEqual,
    LinearLimit,
}

// How many limits and variables are active, beside what the wiring counts.
#[derive(Clone, Copy)]
pub struct Active {
    pub lines: usize,
    pub generators: usize,
    pub sheds: usize,
    pub phases: usize,
    pub pieces: usize,
    pub equalities: usize,
    pub inequalities: usize,
}

// Where each block of columns and of rows starts, how many columns and rows there are, the first two
// cones, and the counts that the wiring does not state.
#[derive(Clone, Copy)]
pub struct OpfLayout {
    pub va: usize,
    pub pg: usize,
    pub flow: usize,
    pub shed: usize,
    pub cost: usize,
    pub nvar: usize,
    pub balance: usize,
    pub flow_def: usize,
    pub reference: usize,
    pub line_ub: usize,
    pub line_lb: usize,
    pub gen_ub: usize,
    pub gen_lb: usize,
    pub shed_ub: usize,
    pub shed_lb: usize,
    pub phase_ub: usize,
    pub phase_lb: usize,
    pub segment: usize,
    pub linear_equal: usize,
    pub linear_limit: usize,
    pub ncon: usize,
    pub n_eq: usize,
    pub n_ineq: usize,
    pub active: Active,
}

// How many flags of a part are set. It asks for the wiring alone: a plan asks for the readings too.
pub fn count_flags(wiring: &Wiring<'_>, p: Part) -> usize
    ensures { (result ≡ active_rank (flagged wiring.now.counts wiring.now.words.now p) (part_size wiring.now.counts p)) × (result ≤ part_size wiring.now.counts p) }
{
    (0..part_size(wiring.counts, p))
        .map(|i| usize::from(wiring.word(p, i) != 0))
        .sum()
}

// Whether bus i has a shed column: its cap is above 0.
pub fn sheds_at(plan: &Plan<'_>, i: usize) -> bool
    requires { i < plan.now.counts.buses }
    ensures { result ≡ sheds plan.now.counts plan.now.wiring.now plan.now.readings.now i }
{
    shed_cap_at(plan, i) > 0.0
}

// How many buses have a shed column. This count and the two of the linear rows stay single: each is one line over its
// own test, which a function for the three would take as a closure.
pub fn count_sheds(plan: &Plan<'_>) -> usize
    ensures { (result ≡ active_rank (sheds plan.now.counts plan.now.wiring.now plan.now.readings.now) plan.now.counts.buses) × (result ≤ plan.now.counts.buses) }
{
    (0..plan.counts.buses)
        .map(|i| usize::from(sheds_at(plan, i)))
        .sum()
}

// How many rows a linear row has among the equalities.
pub fn equalities_of(limits: RowLimits) -> usize
    ensures { result ≡ equalities limits }
{
    match limits {
        RowLimits::None | RowLimits::Upper(_) | RowLimits::Lower(_) | RowLimits::Both(_, _) => 0,
        RowLimits::Equal(_) => 1,
    }
}

// How many it has among the inequalities.
pub fn inequalities_of(limits: RowLimits) -> usize
    ensures { result ≡ inequalities limits }
{
    match limits {
        RowLimits::None | RowLimits::Equal(_) => 0,
        RowLimits::Upper(_) | RowLimits::Lower(_) => 1,
        RowLimits::Both(_, _) => 2,
    }
}

// How many equalities the linear rows have.
pub fn count_equalities(plan: &Plan<'_>) -> usize
    ensures { (result ≡ equality_rank plan.now.counts plan.now.wiring.now plan.now.readings.now plan.now.counts.rows) × (result ≤ plan.now.counts.rows) }
{
    (0..plan.counts.rows)
        .map(|q| equalities_of(row_limits(plan, q)))
        .sum()
}

// How many inequalities they have.
pub fn count_inequalities(plan: &Plan<'_>) -> usize
    ensures { (result ≡ inequality_rank plan.now.counts plan.now.wiring.now plan.now.readings.now plan.now.counts.rows) × (result ≤ 2 * plan.now.counts.rows) }
{
    (0..plan.counts.rows)
        .map(|q| inequalities_of(row_limits(plan, q)))
        .sum()
}

// All that is active.
pub fn active_of(plan: &Plan<'_>) -> Active
    ensures { (result ≡ active_of plan.now.counts plan.now.wiring.now plan.now.readings.now) × Bounded plan.now.counts result }
{
    let wiring = Wiring {
        counts: plan.counts,
        words: plan.wiring,
    };
    Active {
        lines: count_flags(&wiring, Part::ThermalFlags),
        generators: count_flags(&wiring, Part::GeneratorFlags),
        sheds: count_sheds(plan),
        phases: count_flags(&wiring, Part::AngleFlags),
        pieces: piece_count(plan.wiring, plan.counts),
        equalities: count_equalities(plan),
        inequalities: count_inequalities(plan),
    }
}

impl OpfLayout {
    // Each block starts where the one before it ends; of two halves the upper stands first.
    pub fn dc(c: Counts, a: Active) -> OpfLayout
        requires { Bounded c a }
        ensures { Placed c a result }
    {
        let n = c.buses;
        let m = c.branches;
        let lines = a.lines;
        let generators = a.generators;
        let sheds = a.sheds;
        let phases = a.phases;
        let pg = n;
        let flow = pg + c.generators;
        let shed = flow + m;
        let cost = shed + sheds;
        let flow_def = n;
        let reference = flow_def + m;
        let n_eq = reference + c.references;
        let line_lb = n_eq + lines;
        let gen_ub = line_lb + lines;
        let gen_lb = gen_ub + generators;
        let shed_ub = gen_lb + generators;
        let shed_lb = shed_ub + sheds;
        let phase_ub = shed_lb + sheds;
        let phase_lb = phase_ub + phases;
        let segment = phase_lb + phases;
        let linear_equal = segment + c.segments;
        let linear_limit = linear_equal + a.equalities;
        OpfLayout {
            va: 0,
            pg,
            flow,
            shed,
            cost,
            nvar: cost + a.pieces,
            balance: 0,
            flow_def,
            reference,
            line_ub: n_eq,
            line_lb,
            gen_ub,
            gen_lb,
            shed_ub,
            shed_lb,
            phase_ub,
            phase_lb,
            segment,
            linear_equal,
            linear_limit,
            ncon: linear_limit + a.inequalities,
            n_eq,
            n_ineq: linear_equal - n_eq,
            active: a,
        }
    }

    // The layout of a plan's program, by all that is active in it.
    pub fn of(plan: &Plan<'_>) -> OpfLayout
        ensures placed { Placed plan.now.counts (active_of plan.now.counts plan.now.wiring.now plan.now.readings.now) result }
        ensures bounded { Bounded plan.now.counts (active_of plan.now.counts plan.now.wiring.now plan.now.readings.now) }
    {
        OpfLayout::dc(plan.counts, active_of(plan))
    }

    // Where a block of columns starts. `Narrow` is a clause here and below, as at `KktIdx::start`.
    pub fn column(self, b: OpfColumn) -> usize
        requires { Narrow self }
        ensures { (result ≡ column_in self b) × (result ≤ 0x1_0000) }
    {
        match b {
            OpfColumn::Va => self.va,
            OpfColumn::Pg => self.pg,
            OpfColumn::Flow => self.flow,
            OpfColumn::Shed => self.shed,
            OpfColumn::Cost => self.cost,
        }
    }

    // Where a block of rows starts.
    pub fn row(self, b: OpfRow) -> usize
        requires { Narrow self }
        ensures { (result ≡ row_in self b) × (result ≤ 0x1_0000) }
    {
        match b {
            OpfRow::Balance => self.balance,
            OpfRow::FlowRow => self.flow_def,
            OpfRow::Reference => self.reference,
            OpfRow::LineUb => self.line_ub,
            OpfRow::LineLb => self.line_lb,
            OpfRow::GenUb => self.gen_ub,
            OpfRow::GenLb => self.gen_lb,
            OpfRow::ShedUb => self.shed_ub,
            OpfRow::ShedLb => self.shed_lb,
            OpfRow::PhaseUb => self.phase_ub,
            OpfRow::PhaseLb => self.phase_lb,
            OpfRow::Segment => self.segment,
            OpfRow::LinearEqual => self.linear_equal,
            OpfRow::LinearLimit => self.linear_limit,
        }
    }
}
