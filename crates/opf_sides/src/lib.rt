// problem/dc.rs, `assemble_opf`: the objective's linear part q, the right sides b and the cones' sizes.
#![tactic(auto)]

ghost use Rattle.std.specs.Prelude.{◌≡◌, [], ◌∷◌, ◌+◌, ◌<◌, ◌≤◌, length};
ghost use Rattle.sequence.specs.Lists.{front, when};
ghost use Rattle.network.specs.Layout.{part_size};
ghost use Rattle.opf_layout.specs.declared.OpfColumn.TheVariants.{Va};
ghost use Rattle.opf_layout.specs.declared.OpfRow.TheVariants.{Balance};
ghost use Rattle.opf_layout.specs.Layout.{flagged, sheds, rows, row_rank};
ghost use Rattle.opf_assembly.specs.Assembly.{linear, column_elements, row_elements, equal_side, limit_sides, right_sides, q_sheet, b_sheet};
ghost use Rattle.opf_sides.specs.Walks.{Adds, listed, added_word, cones_in, Narrowed};

use model::RowLimits;
use model::rows::row_limits;
use model::withdrawal::{fixed_into, flow_offset_at, shed_cap_at};
use network::{Counts, Field, Grid, Part, Plan};
use opf_layout::{OpfColumn, OpfLayout, OpfRow, sheds_at};
use program_builder::{lin, rhs};

// The right sides of one element, by value: none where its limit is inactive, two for a linear row with two limits. It
// is a list of at most two words, which need no heap so, and says nothing of what is done with them. A pair of options
// could also hold a second word without a first.
#[derive(Clone, Copy)]
pub enum Sides {
    Nothing,
    One(f64),
    Two(f64, f64),
}

// A right side where there is one.
fn side_if(on: bool, v: f64) -> Sides
    ensures { listed result ≡ when on (v ∷ []) }
{
    if on { Sides::One(v) } else { Sides::Nothing }
}

// The right side of a limit whose flag is set.
fn flagged_side(plan: &Plan<'_>, part: Part, i: usize, v: f64) -> Sides
    requires { i < part_size plan.now.counts part }
    ensures { listed result ≡ when (flagged plan.now.counts plan.now.wiring.now part i) (v ∷ []) }
{
    side_if(plan.word(part, i) != 0, v)
}

// The right side of a bound on bus i's shed, where it has a column.
fn shed_side(plan: &Plan<'_>, i: usize, v: f64) -> Sides
    requires { i < plan.now.counts.buses }
    ensures { listed result ≡ when (sheds plan.now.counts plan.now.wiring.now plan.now.readings.now i) (v ∷ []) }
{
    side_if(sheds_at(plan, i), v)
}

// A linear row's right side among the equalities, in per unit.
fn equal_side(plan: &Plan<'_>, limits: RowLimits) -> Sides
    ensures { listed result ≡ equal_side plan.now.counts plan.now.readings.now limits }
{
    let base = plan.reading(Field::BaseMva, 0);
    match limits {
        RowLimits::None | RowLimits::Upper(_) | RowLimits::Lower(_) | RowLimits::Both(_, _) => {
            Sides::Nothing
        }
        RowLimits::Equal(l) => Sides::One(1.0 * l / base),
    }
}

// A linear row's right sides among the inequalities, in per unit: upper before lower.
fn limit_sides(plan: &Plan<'_>, limits: RowLimits) -> Sides
    ensures { listed result ≡ limit_sides plan.now.counts plan.now.readings.now limits }
{
    let base = plan.reading(Field::BaseMva, 0);
    match limits {
        RowLimits::None | RowLimits::Equal(_) => Sides::Nothing,
        RowLimits::Upper(u) => Sides::One(1.0 * u / base),
        RowLimits::Lower(l) => Sides::One(-1.0 * l / base),
        RowLimits::Both(u, l) => Sides::Two(1.0 * u / base, -1.0 * l / base),
    }
}

// What stands in element i's rows of a block after the balances.
fn sides_of(plan: &Plan<'_>, b: OpfRow, i: usize) -> Sides
    requires { (i < row_elements plan.now.counts b) × (0 < row_rank b) }
    ensures { listed result ≡ right_sides plan.now.counts plan.now.wiring.now plan.now.readings.now b i }
{
    match b {
        OpfRow::Balance => Sides::Nothing,
        OpfRow::FlowRow => Sides::One(flow_offset_at(plan.readings, plan.counts, i)),
        OpfRow::Reference => Sides::One(0.0),
        OpfRow::LineUb | OpfRow::LineLb => flagged_side(
            plan,
            Part::ThermalFlags,
            i,
            plan.reading(Field::Fmax, i),
        ),
        OpfRow::GenUb => flagged_side(plan, Part::GeneratorFlags, i, plan.reading(Field::Gmax, i)),
        OpfRow::GenLb => flagged_side(plan, Part::GeneratorFlags, i, -plan.reading(Field::Gmin, i)),
        OpfRow::ShedUb => shed_side(plan, i, shed_cap_at(plan, i)),
        OpfRow::ShedLb => shed_side(plan, i, 0.0),
        OpfRow::PhaseUb => flagged_side(
            plan,
            Part::AngleFlags,
            i,
            plan.reading(Field::Sw, i) * plan.reading(Field::Angmax, i),
        ),
        OpfRow::PhaseLb => flagged_side(
            plan,
            Part::AngleFlags,
            i,
            -plan.reading(Field::Sw, i) * plan.reading(Field::Angmin, i),
        ),
        OpfRow::Segment => Sides::One(-plan.reading(Field::Intercepts, i)),
        OpfRow::LinearEqual => equal_side(plan, row_limits(plan, i)),
        OpfRow::LinearLimit => limit_sides(plan, row_limits(plan, i)),
    }
}

// Words that are written one after the other into a lent sheet.
#[derive(Drop)]
pub struct Words<'a> {
    pub sheet: &'a mut [f64],
    pub at: usize,
}

impl Words<'_> {
    // A right side in the next row.
    fn put(&mut self, v: f64)
        requires { self.old.at < length self.old.sheet.now }
        ensures { Adds (v ∷ []) self.old self.new }
    {
        rhs(self.sheet, self.at, v);
        self.at += 1;
    }

    // An element's right sides.
    fn put_sides(&mut self, s: Sides)
        requires { self.old.at + length (listed s) ≤ length self.old.sheet.now }
        ensures { Adds (listed s) self.old self.new }
    {
        match s {
            Sides::Nothing => {}
            Sides::One(v) => self.put(v),
            Sides::Two(v, u) => {
                self.put(v);
                self.put(u);
            }
        }
    }

    // An element's word of q, which begins at 0, where it has a column.
    fn put_added(&mut self, added: Option<f64>)
        requires { self.old.at + length (added_word added) ≤ length self.old.sheet.now }
        ensures { Adds (added_word added) self.old self.new }
    {
        let Some(value) = added else {
            return;
        };
        rhs(self.sheet, self.at, 0.0);
        lin(self.sheet, self.at, value);
        self.at += 1;
    }
}

// How many elements stand behind a block of rows.
fn row_elements(c: Counts, b: OpfRow) -> usize
    ensures { result ≡ row_elements c b }
{
    match b {
        OpfRow::Balance | OpfRow::ShedUb | OpfRow::ShedLb => c.buses,
        OpfRow::FlowRow | OpfRow::LineUb | OpfRow::LineLb | OpfRow::PhaseUb | OpfRow::PhaseLb =>
            c.branches,
        OpfRow::Reference => c.references,
        OpfRow::GenUb | OpfRow::GenLb => c.generators,
        OpfRow::Segment => c.segments,
        OpfRow::LinearEqual | OpfRow::LinearLimit => c.rows,
    }
}

// The blocks of rows after the balances, in the layout's order.
const ROWS: [OpfRow; 13] = [
    OpfRow::FlowRow,
    OpfRow::Reference,
    OpfRow::LineUb,
    OpfRow::LineLb,
    OpfRow::GenUb,
    OpfRow::GenLb,
    OpfRow::ShedUb,
    OpfRow::ShedLb,
    OpfRow::PhaseUb,
    OpfRow::PhaseLb,
    OpfRow::Segment,
    OpfRow::LinearEqual,
    OpfRow::LinearLimit,
];

// b, row by row: the balances' withdrawals are summed over the branches first.
pub fn put_b(grid: &Grid<'_>, b: &mut [f64])
    requires { length (b_sheet grid.now.plan.counts grid.now.plan.wiring.now grid.now.plan.readings.now) ≤ length b.old }
    ensures { b.new ≡ front (b_sheet grid.now.plan.counts grid.now.plan.wiring.now grid.now.plan.readings.now) b.old }
{
    fixed_into(grid, b);
    let mut words = Words {
        sheet: b,
        at: grid.plan.counts.buses,
    };
    for block in &ROWS {
        for i in 0..row_elements(grid.plan.counts, *block) {
            words.put_sides(sides_of(&grid.plan, *block, i));
        }
    }
}

// What `lin` adds in an element's column, where it has one: cl at the generators, c_shed at the sheds, 1 at the
// epigraphs.
fn linear_of(plan: &Plan<'_>, k: OpfColumn, i: usize) -> Option<f64>
    requires { i < column_elements plan.now.counts k }
    ensures { added_word result ≡ linear plan.now.counts plan.now.wiring.now plan.now.readings.now k i }
{
    match k {
        OpfColumn::Va | OpfColumn::Flow => Some(0.0),
        OpfColumn::Pg => Some(plan.reading(Field::Cl, i)),
        OpfColumn::Shed => { sheds_at(plan, i).then_some(plan.reading(Field::CShed, i)) }
        OpfColumn::Cost => (plan.word(Part::Segments, i) != 0).then_some(1.0),
    }
}

// How many elements stand behind a block of columns.
fn column_elements(c: Counts, k: OpfColumn) -> usize
    ensures { result ≡ column_elements c k }
{
    match k {
        OpfColumn::Va | OpfColumn::Shed => c.buses,
        OpfColumn::Pg | OpfColumn::Cost => c.generators,
        OpfColumn::Flow => c.branches,
    }
}

// The blocks of columns, in the layout's order.
const COLUMNS: [OpfColumn; 5] = [
    OpfColumn::Va,
    OpfColumn::Pg,
    OpfColumn::Flow,
    OpfColumn::Shed,
    OpfColumn::Cost,
];

// q, column by column.
pub fn put_q(plan: &Plan<'_>, q: &mut [f64])
    requires { length (q_sheet plan.now.counts plan.now.wiring.now plan.now.readings.now) ≤ length q.old }
    ensures { q.new ≡ front (q_sheet plan.now.counts plan.now.wiring.now plan.now.readings.now) q.old }
{
    let mut words = Words { sheet: q, at: 0 };
    for block in &COLUMNS {
        for i in 0..column_elements(plan.counts, *block) {
            words.put_added(linear_of(plan, *block, i));
        }
    }
}

// How many cones there are: two, and the linear ones only if above 0.
pub fn cone_count(lay: OpfLayout) -> usize
    ensures { result ≡ length (cones_in lay) }
{
    2 + usize::from(lay.active.equalities != 0) + usize::from(lay.active.inequalities != 0)
}

// The cones' sizes, in row order.
pub fn put_cones(lay: OpfLayout, sizes: &mut [u32])
    requires narrowed { Narrowed lay }
    requires lay_in_bounds { length (cones_in lay) ≤ length sizes.old }
    ensures { sizes.new ≡ front (cones_in lay) sizes.old }
{
    let equalities = lay.active.equalities;
    let inequalities = lay.active.inequalities;
    sizes[0] = lay.n_eq as u32;
    sizes[1] = lay.n_ineq as u32;
    let mut k = 2;
    if equalities != 0 {
        sizes[k] = equalities as u32;
        k += 1;
    }
    if inequalities != 0 {
        sizes[k] = inequalities as u32;
    }
}
