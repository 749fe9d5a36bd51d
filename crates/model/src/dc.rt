// model/dc.rs's quantities as public calls. Each tests the whole network, answers 01's number and a
// count, and fills the front of the sheet that it is lent; a refusal changes no word.
ghost use Rattle.std.specs.Prelude.{◌≡◌, get_or, ◌&&◌, eqb, length, ◌<◌, ◌≤◌, IfOk};
ghost use Rattle.sequence.specs.Answers.{first_of, number_of, answered};
ghost use Rattle.float64.specs.Values.{sheet_limit};
ghost use Rattle.sequence.specs.Sheets.{listed, lays_if};
ghost use Rattle.network.specs.Numbers.{all_within};
ghost use Rattle.network.specs.Sites.{network_in};
ghost use Rattle.susceptance.specs.Susceptance.{susceptance_coo};
ghost use Rattle.model.specs.Fills.{OfBus, of_network, FillsBuses, BusesAre};
ghost use Rattle.model.specs.Calls.{bus_call, element_tests, shed_cap_call, flow_offset_call, generator_cost_call, evaluate_call, phase_call, network_call, fixed_call, kind_answered, row_kind_call, susceptance_call};

use crate::RowKind;
use crate::cost::generator_cost_at;
use crate::rows::row_limits;
use crate::terms::evaluate_at;
use crate::withdrawal::{fixed_into, flow_offset_at, network_into, phase_into, shed_cap_at};
use float64::sheet_limit;
use network::check::{all_within, is_raw};
use network::{Grid, Lent};
use sequence::laying::lay;
use sequence::{Answer, Refusal};
use susceptance::put_susceptance;

// Numbers 5 and 7 of a call for one number: index i is below `count`, and the sheet has room for it.
fn accept_element(count: usize, i: usize, room: usize) -> Result<(), Refusal>
    ensures number { number_of result ≡ first_of (element_tests count i room) }
    ensures accepted { IfOk result (λ _. (i < count) × (1 ≤ room)) }
{
    if count <= i {
        return Err(Refusal::Element);
    }
    if room < 1 {
        Err(Refusal::Short)
    } else {
        Ok(())
    }
}

// A value of every bus, which a call fills into the front of the sheet.
fn fill_buses<F: FnOnce(&Grid<'_>, &mut [f64])>(lent: Lent<'_>, out: &mut [f64], fill: F) -> Answer
    requires { FillsBuses (F.pre fill) }
    ensures { (f : OfBus) → BusesAre (F.post fill) f → answered result out.new ≡ bus_call (network_in lent.entry) (of_network f (network_in lent.entry)) out.old }
{
    let site = lent.accept()?;
    let buses = site.grid.plan.counts.buses;
    if out.len() < buses {
        return Err(Refusal::Short);
    }
    fill(&site.grid, out);
    Ok(buses)
}

// The phase-shift withdrawal of every bus.
pub fn phase_withdrawal(lent: Lent<'_>, out: &mut [f64]) -> Answer
    ensures { answered result out.new ≡ phase_call (network_in lent.entry) out.old }
{
    fill_buses(lent, out, phase_into)
}

// The fixed withdrawal of every bus other than demand: shunt conductance and phase shift, less the HVDC injection.
pub fn network_withdrawal(lent: Lent<'_>, out: &mut [f64]) -> Answer
    ensures { answered result out.new ≡ network_call (network_in lent.entry) out.old }
{
    fill_buses(lent, out, network_into)
}

// The fixed withdrawal of every bus: demand and the network withdrawal.
pub fn current_fixed_withdrawal(lent: Lent<'_>, out: &mut [f64]) -> Answer
    ensures { answered result out.new ≡ fixed_call (network_in lent.entry) out.old }
{
    fill_buses(lent, out, fixed_into)
}

// The affine flow offset of a branch at its present status.
pub fn current_flow_offset(lent: Lent<'_>, branch: usize, out: &mut [f64]) -> Answer
    ensures { answered result out.new ≡ flow_offset_call (network_in lent.entry) branch out.old }
{
    let site = lent.accept()?;
    accept_element(site.grid.plan.counts.branches, branch, out.len())?;
    out[0] = flow_offset_at(site.grid.plan.readings, site.grid.plan.counts, branch);
    Ok(1)
}

// The shedding upper bound at a bus.
pub fn shed_cap(lent: Lent<'_>, bus: usize, out: &mut [f64]) -> Answer
    ensures { answered result out.new ≡ shed_cap_call (network_in lent.entry) bus out.old }
{
    let site = lent.accept()?;
    accept_element(site.grid.plan.counts.buses, bus, out.len())?;
    out[0] = shed_cap_at(&site.grid.plan, bus);
    Ok(1)
}

// A generator's cost at a power in per unit.
pub fn generator_cost(lent: Lent<'_>, generator: usize, power: f64, out: &mut [f64]) -> Answer
    ensures { answered result out.new ≡ generator_cost_call (network_in lent.entry) generator power out.old }
{
    let site = lent.accept_with(true, is_raw(power))?;
    accept_element(site.grid.plan.counts.generators, generator, out.len())?;
    out[0] = generator_cost_at(&site.grid, generator, power);
    Ok(1)
}

// A word of the wiring, and 0 past its end.
fn word_or_zero(wiring: &[u32], i: usize) -> usize
    ensures { result ≡ get_or wiring.now i 0 }
{
    if i < wiring.len() {
        wiring[i] as usize
    } else {
        0
    }
}

// Whether there are as many flows as branches, and as many powers as generators.
fn flows_and_powers(wiring: &[u32], f: &[f64], pg: &[f64]) -> bool
    ensures { result ≡ (eqb (length f.now) (get_or wiring.now 1 0) && eqb (length pg.now) (get_or wiring.now 2 0)) }
{
    f.len() == word_or_zero(wiring, 1) && pg.len() == word_or_zero(wiring, 2)
}

// Whether flows and powers are sheet readings.
fn both_within(f: &[f64], pg: &[f64]) -> bool
    ensures { result ≡ (all_within sheet_limit f.now && all_within sheet_limit pg.now) }
{
    let limit = sheet_limit();
    all_within(f, limit) && all_within(pg, limit)
}

// A linear row's value at flows and powers.
pub fn evaluate(lent: Lent<'_>, row: usize, f: &[f64], pg: &[f64], out: &mut [f64]) -> Answer
    ensures { answered result out.new ≡ evaluate_call (network_in lent.entry) row f.now pg.now out.old }
{
    let sizes = flows_and_powers(lent.wiring, f, pg);
    let values = both_within(f, pg);
    let site = lent.accept_with(sizes, values)?;
    accept_element(site.grid.plan.counts.rows, row, out.len())?;
    out[0] = evaluate_at(
        site.grid.plan.wiring,
        site.grid.plan.counts,
        site.term_index,
        site.term_coefficient,
        row,
        f,
        pg,
    );
    Ok(1)
}

// Which limits a linear row has.
pub fn row_kind(lent: Lent<'_>, row: usize) -> Result<RowKind, Refusal>
    ensures { kind_answered result ≡ row_kind_call (network_in lent.entry) row }
{
    let site = lent.accept()?;
    if site.grid.plan.counts.rows <= row {
        return Err(Refusal::Element);
    }
    Ok(row_limits(&site.grid.plan, row).kind())
}

// The susceptance list into three sheets: four triplets for each branch are the most.
// The sheets stay single here and below, as C lends them.
fn lay_susceptance(
    grid: &Grid<'_>,
    rows: &mut [u32],
    cols: &mut [u32],
    values: &mut [f64],
) -> Answer
    ensures { listed result rows.new cols.new values.new ≡ lays_if (susceptance_coo grid.now.plan.counts grid.now.plan.wiring.now grid.now.plan.readings.now) rows.old cols.old values.old }
{
    lay(
        rows,
        cols,
        values,
        4 * grid.plan.counts.branches,
        &|sink| put_susceptance(grid, sink),
    )
}

// The susceptance matrix as triplets, by row, then column.
pub fn susceptance_coo(
    lent: Lent<'_>,
    rows: &mut [u32],
    cols: &mut [u32],
    values: &mut [f64],
) -> Answer
    ensures { listed result rows.new cols.new values.new ≡ susceptance_call (network_in lent.entry) rows.old cols.old values.old }
{
    let site = lent.accept()?;
    lay_susceptance(&site.grid, rows, cols, values)
}
