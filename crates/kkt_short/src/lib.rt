// Columns of at most three entries: those of branches, of buses' sheds and of references.
#![tactic(auto)]

ghost use Rattle.std.specs.Prelude.{◌≡◌, ◌+◌, ◌<◌, ◌≤◌, cond, None, IsTrue};
ghost use Rattle.sequence.specs.Lists.{each};
ghost use Rattle.sequence.specs.Sinks.{Gains};
ghost use Rattle.network.specs.declared.Part.TheVariants.{BrFrom, BrTo};
ghost use Rattle.network.specs.Layout.{wire};
ghost use Rattle.kkt_index.specs.Index.{start_in};
ghost use Rattle.kkt_index.specs.declared.Block.TheVariants.{Va};
ghost use Rattle.snapping.specs.States.{by_state};
ghost use Rattle.kkt.specs.Slots.{Site, columns, turns_of, flow_column, psh_column, gamma_lb_column, gamma_ub_column, mu_lb_column, mu_ub_column, nu_flow_column, eta_column};
ghost use Rattle.kkt.specs.Matrix.{kept};
ghost use Rattle.kkt.specs.Walks.{three, triple, is_short, item_at, emitted_at};

use kkt::{Kkt, entry, put_all};
use kkt_index::Block;
use model::withdrawal::shed_cap_at;
use network::{Counts, Field, Part};
use sequence::{Sink, Triplet};
use snapping::{BusState, angle, bus_state, is_fixed_zero_shed, shed_of};
use solution::Entry;

// A bound's column: its gradient's entry a, and its slack d on the diagonal.
fn bound_column(
    kkt: &Kkt<'_>,
    a: Block,
    b: Block,
    i: usize,
    gradient: f64,
    slack: f64,
) -> [Option<Triplet>; 3]
    requires { i ≤ 0x1_0000 }
    ensures { let x = kkt.now.index in result ≡ three (kept (start_in x a + i) (start_in x b + i) gradient) (kept (start_in x b + i) (start_in x b + i) slack) None }
{
    [
        entry(kkt.index, a, i, b, i, gradient),
        entry(kkt.index, b, i, b, i, slack),
        None,
    ]
}

// A column of branch e with one entry at each of its ends, and one more.
fn ends_column(
    kkt: &Kkt<'_>,
    b: Block,
    e: usize,
    from: f64,
    to: f64,
    a: Block,
    own: f64,
) -> [Option<Triplet>; 3]
    requires { e < kkt.now.grid.plan.counts.branches }
    ensures { let x = kkt.now.index in let c = kkt.now.grid.plan.counts in let w = kkt.now.grid.plan.wiring.now in result ≡ three (kept (start_in x Va + wire c w BrFrom e) (start_in x b + e) from) (kept (start_in x Va + wire c w BrTo e) (start_in x b + e) to) (kept (start_in x a + e) (start_in x b + e) own) }
{
    let p = kkt.grid.word(Part::BrFrom, e);
    let q = kkt.grid.word(Part::BrTo, e);
    [
        entry(kkt.index, Block::Va, p, b, e, from),
        entry(kkt.index, Block::Va, q, b, e, to),
        entry(kkt.index, a, e, b, e, own),
    ]
}

// f columns: line-bound stationarity and flow definition.
fn flow_column(kkt: &Kkt<'_>, e: usize) -> [Option<Triplet>; 3]
    requires { e < kkt.now.grid.plan.counts.branches }
    ensures { result ≡ triple (item_at kkt.now) (flow_column e) }
{
    let lower = kkt.value(Entry::LamLb, e);
    let upper = kkt.value(Entry::LamUb, e);
    [
        entry(kkt.index, Block::LamLb, e, Block::Flow, e, lower),
        entry(kkt.index, Block::LamUb, e, Block::Flow, e, -upper),
        entry(kkt.index, Block::NuFlow, e, Block::Flow, e, 1.0),
    ]
}

// psh columns: shedding-bound stationarity (a fixed bus has a unit) and power balance. The bus's state
// is found once for both multipliers.
fn psh_column(kkt: &Kkt<'_>, i: usize) -> [Option<Triplet>; 3]
    requires { i < kkt.now.grid.plan.counts.buses }
    ensures { result ≡ triple (item_at kkt.now) (psh_column kkt.now.grid.plan.wiring.now i) }
{
    let fixed = is_fixed_zero_shed(&kkt.grid.plan, i);
    let cap = shed_cap_at(&kkt.grid.plan, i);
    let shed = kkt.value(Entry::Psh, i);
    let lower = kkt.value(Entry::MuLb, i);
    let upper = kkt.value(Entry::MuUb, i);
    let state = bus_state(cap, shed);
    [
        entry(
            kkt.index,
            Block::MuLb,
            i,
            Block::Psh,
            i,
            if_fixed(fixed, 1.0, by_state(state, lower - upper, lower, 0.0, 0.0)),
        ),
        entry(
            kkt.index,
            Block::MuUb,
            i,
            Block::Psh,
            i,
            if_fixed(fixed, 0.0, -by_state(state, 0.0, 0.0, upper, 0.0)),
        ),
        entry(kkt.index, Block::NuBal, i, Block::Psh, i, 1.0),
    ]
}

// One of four values, by the state of a bus.
fn by_state(s: BusState, fixed: f64, zero: f64, cap: f64, between: f64) -> f64
    ensures { result ≡ by_state s fixed zero cap between }
{
    match s {
        BusState::Fixed => fixed,
        BusState::AtZero => zero,
        BusState::AtCap => cap,
        BusState::Between => between,
    }
}

// One of two values.
fn if_fixed(fixed: bool, a: f64, b: f64) -> f64
    ensures { result ≡ cond fixed a b }
{
    if fixed { a } else { b }
}

// gamma (phase-angle-difference) columns.
fn gamma_lb_column(kkt: &Kkt<'_>, e: usize) -> [Option<Triplet>; 3]
    requires { e < kkt.now.grid.plan.counts.branches }
    ensures { result ≡ triple (item_at kkt.now) (gamma_lb_column kkt.now.grid.plan.counts kkt.now.grid.plan.wiring.now e) }
{
    let sw = kkt.grid.reading(Field::Sw, e);
    let plan = kkt.grid.plan;
    let across = angle(plan.wiring, kkt.sheet, plan.counts, kkt.index.pieces, e);
    let slack = sw * (across - kkt.grid.reading(Field::Angmin, e));
    ends_column(kkt, Block::GammaLb, e, -sw, sw, Block::GammaLb, slack)
}

fn gamma_ub_column(kkt: &Kkt<'_>, e: usize) -> [Option<Triplet>; 3]
    requires { e < kkt.now.grid.plan.counts.branches }
    ensures { result ≡ triple (item_at kkt.now) (gamma_ub_column kkt.now.grid.plan.counts kkt.now.grid.plan.wiring.now e) }
{
    let sw = kkt.grid.reading(Field::Sw, e);
    let plan = kkt.grid.plan;
    let across = angle(plan.wiring, kkt.sheet, plan.counts, kkt.index.pieces, e);
    let slack = sw * (kkt.grid.reading(Field::Angmax, e) - across);
    ends_column(kkt, Block::GammaUb, e, sw, -sw, Block::GammaUb, slack)
}

// mu (shedding-bound) columns.
fn mu_lb_column(kkt: &Kkt<'_>, i: usize) -> [Option<Triplet>; 3]
    requires { i < kkt.now.grid.plan.counts.buses }
    ensures { result ≡ triple (item_at kkt.now) (mu_lb_column kkt.now.grid.plan.wiring.now i) }
{
    let fixed = is_fixed_zero_shed(&kkt.grid.plan, i);
    let shed = shed_of(&kkt.grid.plan, kkt.sheet, kkt.index.pieces, i);
    bound_column(
        kkt,
        Block::Psh,
        Block::MuLb,
        i,
        -1.0,
        if_fixed(fixed, 0.0, shed),
    )
}

fn mu_ub_column(kkt: &Kkt<'_>, i: usize) -> [Option<Triplet>; 3]
    requires { i < kkt.now.grid.plan.counts.buses }
    ensures { result ≡ triple (item_at kkt.now) (mu_ub_column kkt.now.grid.plan.wiring.now i) }
{
    let fixed = is_fixed_zero_shed(&kkt.grid.plan, i);
    let slack = shed_cap_at(&kkt.grid.plan, i)
        - shed_of(&kkt.grid.plan, kkt.sheet, kkt.index.pieces, i);
    bound_column(
        kkt,
        Block::Psh,
        Block::MuUb,
        i,
        1.0,
        if_fixed(fixed, 1.0, slack),
    )
}

// nu_flow columns: (W*A)' (theta), -I (f).
fn nu_flow_column(kkt: &Kkt<'_>, e: usize) -> [Option<Triplet>; 3]
    requires { e < kkt.now.grid.plan.counts.branches }
    ensures { result ≡ triple (item_at kkt.now) (nu_flow_column kkt.now.grid.plan.counts kkt.now.grid.plan.wiring.now e) }
{
    let b = kkt.grid.reading(Field::Susceptance, e);
    let sw = kkt.grid.reading(Field::Sw, e);
    ends_column(kkt, Block::NuFlow, e, -b * sw, b * sw, Block::Flow, -1.0)
}

// eta columns: one reference indicator for each place.
fn eta_column(kkt: &Kkt<'_>, k: usize) -> [Option<Triplet>; 3]
    requires { k < kkt.now.grid.plan.counts.references }
    ensures { result ≡ triple (item_at kkt.now) (eta_column kkt.now.grid.plan.counts kkt.now.grid.plan.wiring.now k) }
{
    let bus = kkt.grid.word(Part::References, k);
    [
        entry(kkt.index, Block::Va, bus, Block::Eta, k, 1.0),
        None,
        None,
    ]
}

// How many columns a block has, where they are put one by one.
pub fn turns_of(c: Counts, b: Block) -> usize
    ensures { result ≡ turns_of c b }
{
    match b {
        Block::Va | Block::Psh | Block::MuLb | Block::MuUb | Block::NuBal => c.buses,
        Block::Pg | Block::Cost | Block::RhoLb | Block::RhoUb | Block::Segments => c.generators,
        Block::Flow
        | Block::LamLb
        | Block::LamUb
        | Block::GammaLb
        | Block::GammaUb
        | Block::NuFlow => c.branches,
        Block::Linear => c.rows,
        Block::Eta => c.references,
    }
}

// Column i of a block whose columns are short: a bound's on flow or dispatch by what is left to the bound.
fn short_column(kkt: &Kkt<'_>, b: Block, i: usize) -> [Option<Triplet>; 3]
    requires b_value { IsTrue (is_short b) }
    requires i_bound { i < turns_of kkt.now.grid.plan.counts b }
    ensures { (s : Site) → s.counts ≡ kkt.now.grid.plan.counts → s.wiring ≡ kkt.now.grid.plan.wiring.now → result ≡ triple (item_at kkt.now) (columns s b i) }
{
    match b {
        Block::Flow => flow_column(kkt, i),
        Block::Psh => psh_column(kkt, i),
        Block::LamLb => {
            let slack = kkt.value(Entry::Flow, i) + kkt.grid.reading(Field::Fmax, i);
            bound_column(kkt, Block::Flow, Block::LamLb, i, -1.0, slack)
        }
        Block::LamUb => {
            let slack = kkt.grid.reading(Field::Fmax, i) - kkt.value(Entry::Flow, i);
            bound_column(kkt, Block::Flow, Block::LamUb, i, 1.0, slack)
        }
        Block::GammaLb => gamma_lb_column(kkt, i),
        Block::GammaUb => gamma_ub_column(kkt, i),
        Block::RhoLb => {
            let slack = kkt.value(Entry::Pg, i) - kkt.grid.reading(Field::Gmin, i);
            bound_column(kkt, Block::Pg, Block::RhoLb, i, -1.0, slack)
        }
        Block::RhoUb => {
            let slack = kkt.grid.reading(Field::Gmax, i) - kkt.value(Entry::Pg, i);
            bound_column(kkt, Block::Pg, Block::RhoUb, i, 1.0, slack)
        }
        Block::MuLb => mu_lb_column(kkt, i),
        Block::MuUb => mu_ub_column(kkt, i),
        Block::NuFlow => nu_flow_column(kkt, i),
        Block::Eta => eta_column(kkt, i),
        _ => unreachable!(),
    }
}

// Every column of a block whose columns are short.
pub fn put_short(kkt: &Kkt<'_>, b: Block, sink: &mut Sink<'_>)
    requires b_value { IsTrue (is_short b) }
    requires at_bound { sink.old.count < 0x800_0000 }
    ensures puts { (s : Site) → s.counts ≡ kkt.now.grid.plan.counts → s.wiring ≡ kkt.now.grid.plan.wiring.now → Gains (emitted_at kkt.now (each (turns_of kkt.now.grid.plan.counts b) (columns s b))) sink.old sink.new }
    ensures most { sink.new.count ≤ sink.old.count + 0x1_0000 }
{
    let to = turns_of(kkt.grid.plan.counts, b);
    for i in 0..to {
        put_all(sink, short_column(kkt, b, i));
    }
}
