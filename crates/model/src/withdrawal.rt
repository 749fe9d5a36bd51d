// What buses withdraw besides their injections, in the order of the sums of model/dc.rs.
ghost use Rattle.std.specs.Prelude.{◌≡◌, ℕ, ◌<◌, ◌≤◌, length, get_or, eqb};
ghost use Rattle.std.specs.Float.{nan};
ghost use Rattle.float64.specs.Values.{add_at, sub_at};
ghost use Rattle.sequence.specs.Lists.{made, front};
ghost use Rattle.network.specs.Layout.{ReadingsLaid};
ghost use Rattle.model.specs.Quantities.{shed_cap, flow_offset, phase, network_at, fixed_at};

use network::layout::reading;
use network::{Counts, Field, Grid, Part, Plan};

// The most that bus i can shed: the larger of its demand and 0, and 0 where none may be shed.
pub fn shed_cap_at(plan: &Plan<'_>, i: usize) -> f64
    requires { i < plan.now.counts.buses }
    ensures { result ≡ shed_cap plan.now.counts plan.now.wiring.now plan.now.readings.now i }
{
    if plan.wiring[7] == 1 {
        float64::max_zero(plan.reading(Field::Demand, i))
    } else {
        0.0
    }
}

// Branch e's flow offset, where it is switched in.
// It asks for the readings alone: a plan would ask for the wiring too.
pub fn flow_offset_at(readings: &[f64], c: Counts, e: usize) -> f64
    requires readings_laid { ReadingsLaid c readings.now }
    requires e_lt_branches { e < c.branches }
    ensures { result ≡ flow_offset c readings.now e }
{
    reading(readings, c, Field::Sw, e) * reading(readings, c, Field::FlowOffset, e)
}

// A branch's offset x: added at its from end, then taken away at its to end.
fn phase_step(out: &mut [f64], from: usize, to: usize, x: f64)
    requires { (from < length out.old) × (to < length out.old) }
    ensures by_index { (i : ℕ) → get_or out.new i nan ≡ sub_at (eqb to i) x (add_at (eqb from i) x (get_or out.old i nan)) }
    ensures out_len_unchanged { length out.new ≡ length out.old }
{
    out[from] += x;
    out[to] -= x;
}

// The phase-shift withdrawals into the first n words.
pub fn phase_into(grid: &Grid<'_>, out: &mut [f64])
    requires { grid.now.plan.counts.buses ≤ length out.old }
    ensures out_after { out.new ≡ front (made (phase grid.now.plan.counts grid.now.plan.wiring.now grid.now.plan.readings.now) grid.now.plan.counts.buses) out.old }
    ensures out_len_unchanged { length out.new ≡ length out.old }
{
    let m = grid.plan.counts.branches;
    out[..grid.plan.counts.buses].fill(0.0);
    for e in 0..m {
        let from = grid.word(Part::BrFrom, e);
        let to = grid.word(Part::BrTo, e);
        phase_step(
            out,
            from,
            to,
            flow_offset_at(grid.plan.readings, grid.plan.counts, e),
        );
    }
}

// The network withdrawals into the first n words: shunt conductance + phase - HVDC injection.
pub fn network_into(grid: &Grid<'_>, out: &mut [f64])
    requires { grid.now.plan.counts.buses ≤ length out.old }
    ensures out_after { out.new ≡ front (made (network_at grid.now.plan.counts grid.now.plan.wiring.now grid.now.plan.readings.now) grid.now.plan.counts.buses) out.old }
    ensures out_len_unchanged { length out.new ≡ length out.old }
{
    let n = grid.plan.counts.buses;
    phase_into(grid, out);
    // Each word is made of its index: two readings of bus i.
    for i in 0..n {
        out[i] = grid.reading(Field::ShuntConductance, i) + out[i]
            - grid.reading(Field::HvdcInjection, i);
    }
}

// The fixed withdrawals into the first n words: demand + network withdrawal.
pub fn fixed_into(grid: &Grid<'_>, out: &mut [f64])
    requires { grid.now.plan.counts.buses ≤ length out.old }
    ensures out_after { out.new ≡ front (made (fixed_at grid.now.plan.counts grid.now.plan.wiring.now grid.now.plan.readings.now) grid.now.plan.counts.buses) out.old }
    ensures out_len_unchanged { length out.new ≡ length out.old }
{
    let n = grid.plan.counts.buses;
    network_into(grid, out);
    // Each word is made of its index: the demand of bus i.
    for i in 0..n {
        out[i] = grid.reading(Field::Demand, i) + out[i];
    }
}
