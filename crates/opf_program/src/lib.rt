// problem/dc.rs, `assemble_opf`: entries of A as triplets, and those of a branch into a sink, in the Rust's order of writing.
#![tactic(auto)]

ghost use Rattle.std.specs.Prelude.{◌≡◌, [], ◌∷◌, ◌+◌, ◌<◌, ◌≤◌};
ghost use Rattle.std.specs.Float.Ieee.{neg};
ghost use Rattle.float64.specs.Values.{one};
ghost use Rattle.sequence.specs.Sinks.{Gains};
ghost use Rattle.network.specs.declared.Part.TheVariants.{ThermalFlags, AngleFlags};
ghost use Rattle.network.specs.Layout.{reading};
ghost use Rattle.snapping.specs.Expr.{eval};
ghost use Rattle.kkt.specs.Slots.{weight_of};
ghost use Rattle.opf_layout.specs.Layout.{active_rank, flagged};
ghost use Rattle.opf_assembly.specs.Assembly.{blank, branch_own, phase_entries, branch_entries};
ghost use Rattle.opf_program.specs.Walks.{entry_in, items_at, written_at};

pub mod frame;

pub use frame::{Opf, OpfSite};
use kkt::put_all;
use network::{Field, Part, Plan};
use opf_layout::{OpfColumn, OpfRow};
use program_builder::a;
use sequence::{Sink, Triplet};

// The weight of branch e.
fn weight(plan: &Plan<'_>, e: usize) -> f64
    requires { e < plan.now.counts.branches }
    ensures { result ≡ eval (reading plan.now.counts plan.now.readings.now) blank (weight_of e) }
{
    let b = plan.reading(Field::Susceptance, e);
    let sw = plan.reading(Field::Sw, e);
    -b * sw
}

impl Opf<'_> {
    // The entry of a block's row i and a block's column j: none where its value is zero.
    #[inline(always)]
    pub fn entry(
        &self,
        row: OpfRow,
        i: usize,
        col: OpfColumn,
        j: usize,
        value: f64,
    ) -> Option<Triplet>
        requires { (i ≤ 0x1_0000) × (j ≤ 0x1_0000) }
        ensures { result ≡ entry_in self.now.layout row i col j value }
    {
        a(self.layout.row(row) + i, self.layout.column(col) + j, value)
    }

    // Both sides of a limit: + in the upper row, - in the lower.
    #[inline(always)]
    pub fn sides(
        &self,
        ub: OpfRow,
        lb: OpfRow,
        i: usize,
        col: OpfColumn,
        j: usize,
    ) -> [Option<Triplet>; 2]
        requires { (i ≤ 0x1_0000) × (j ≤ 0x1_0000) }
        ensures { result ≡ entry_in self.now.layout ub i col j one ∷ entry_in self.now.layout lb i col j (neg one) ∷ [] }
    {
        [
            self.entry(ub, i, col, j, 1.0),
            self.entry(lb, i, col, j, -1.0),
        ]
    }

    // Branch e's entries in the balances of its ends and in its flow's definition.
    #[inline(always)]
    fn own(&self, e: usize) -> [Option<Triplet>; 7]
        requires { e < self.now.grid.plan.counts.branches }
        ensures { result ≡ items_at self.now (branch_own self.now.grid.plan.counts self.now.grid.plan.wiring.now self.now.grid.plan.readings.now e) }
    {
        let w = weight(&self.grid.plan, e);
        let fb = self.grid.word(Part::BrFrom, e);
        let tb = self.grid.word(Part::BrTo, e);
        [
            self.entry(OpfRow::Balance, fb, OpfColumn::Va, fb, -w),
            self.entry(OpfRow::Balance, tb, OpfColumn::Va, tb, -w),
            self.entry(OpfRow::Balance, fb, OpfColumn::Va, tb, w),
            self.entry(OpfRow::Balance, tb, OpfColumn::Va, fb, w),
            self.entry(OpfRow::FlowRow, e, OpfColumn::Flow, e, 1.0),
            self.entry(OpfRow::FlowRow, e, OpfColumn::Va, fb, -w),
            self.entry(OpfRow::FlowRow, e, OpfColumn::Va, tb, w),
        ]
    }

    // Branch e's angle limits, which are active and have a rank among them.
    #[inline(always)]
    fn phase(&self, e: usize, rank: usize) -> [Option<Triplet>; 4]
        requires { (e < self.now.grid.plan.counts.branches) × (rank ≡ active_rank (flagged self.now.grid.plan.counts self.now.grid.plan.wiring.now AngleFlags) e) × (rank ≤ 0x1_0000) }
        ensures { result ≡ items_at self.now (phase_entries self.now.grid.plan.counts self.now.grid.plan.wiring.now self.now.grid.plan.readings.now e) }
    {
        let sw = self.grid.reading(Field::Sw, e);
        let fb = self.grid.word(Part::BrFrom, e);
        let tb = self.grid.word(Part::BrTo, e);
        [
            self.entry(OpfRow::PhaseUb, rank, OpfColumn::Va, fb, sw),
            self.entry(OpfRow::PhaseUb, rank, OpfColumn::Va, tb, -sw),
            self.entry(OpfRow::PhaseLb, rank, OpfColumn::Va, fb, -sw),
            self.entry(OpfRow::PhaseLb, rank, OpfColumn::Va, tb, sw),
        ]
    }
}

// Branch e: its own entries, then its thermal and its angle limits, where they are active.
// What takes a sink is inlined up to where the sink is made: out of line, each triplet would reload the sheets' places
// from it, and the assembly would take three times as long.
#[inline(always)]
pub fn put_branch(opf: &Opf<'_>, e: usize, line: usize, phase: usize, sink: &mut Sink<'_>)
    requires e_lt_branches { (e < opf.now.grid.plan.counts.branches) × (sink.old.count < 0x800_0000) }
    requires line_value { (line ≡ active_rank (flagged opf.now.grid.plan.counts opf.now.grid.plan.wiring.now ThermalFlags) e) × (line ≤ 0x1_0000) × (phase ≡ active_rank (flagged opf.now.grid.plan.counts opf.now.grid.plan.wiring.now AngleFlags) e) × (phase ≤ 0x1_0000) }
    ensures puts { Gains (written_at opf.now (branch_entries opf.now.grid.plan.counts opf.now.grid.plan.wiring.now opf.now.grid.plan.readings.now e)) sink.old sink.new }
    ensures most { sink.new.count ≤ sink.old.count + 13 }
{
    put_all(sink, opf.own(e));
    if opf.grid.word(Part::ThermalFlags, e) != 0 {
        put_all(
            sink,
            opf.sides(OpfRow::LineUb, OpfRow::LineLb, line, OpfColumn::Flow, e),
        );
    }
    if opf.grid.word(Part::AngleFlags, e) != 0 {
        put_all(sink, opf.phase(e, phase));
    }
}
