// problem/dc.rs as public calls.
#![tactic(auto)]

ghost use Rattle.std.specs.Prelude.{◌≡◌, length};
ghost use Rattle.std.specs.Float.{binary64};
ghost use Rattle.std.specs.Float.Ieee.{div};
ghost use Rattle.sequence.specs.Answers.{answered};
ghost use Rattle.sequence.specs.Lists.{made};
ghost use Rattle.network.specs.declared.Field.TheVariants.{BaseMva};
ghost use Rattle.network.specs.Layout.{reading};
ghost use Rattle.network.specs.Sites.{network_in};
ghost use Rattle.solution.specs.declared.Entry.TheVariants.{NuBal};
ghost use Rattle.solution.specs.Sheet.{solved};
ghost use Rattle.problem.specs.Calls.{nodal_call, read_call};

use network::{Field, Lent};
use opf_layout::Raw;
use opf_readback::read_into;
use raw_check::accept_raw;
use sequence::{Answer, Refusal};
use solution::{Entry, OperatingPoint, piece_count};
use solution_check::{accept_solution, sheet_length};

// nu_bal / base_mva of every bus.
fn nodal_into(point: &OperatingPoint<'_>, out: &mut [f64])
    requires { length out.old ≡ point.now.grid.plan.counts.buses }
    ensures { out.new ≡ made (λ i. div binary64 (solved point.now.grid.plan.counts point.now.pieces point.now.sheet.now NuBal i) (reading point.now.grid.plan.counts point.now.grid.plan.readings.now BaseMva 0)) (length out.old) }
{
    let base = point.grid.reading(Field::BaseMva, 0);
    for (i, word) in out.iter_mut().enumerate() {
        *word = point.value(Entry::NuBal, i) / base;
    }
}

// The marginal objective change for an added MW at each bus: nu_bal / base_mva.
pub fn nodal_marginal_values(lent: Lent<'_>, solution: &[f64], out: &mut [f64]) -> Answer
    ensures { answered result out.new ≡ nodal_call (network_in lent.entry) solution.now out.old }
{
    let site = accept_solution(lent, solution, true)?.site;
    let c = site.grid.plan.counts;
    if out.len() < c.buses {
        return Err(Refusal::Short);
    }
    let point = OperatingPoint {
        grid: site.grid,
        pieces: piece_count(site.grid.plan.wiring, c),
        sheet: solution,
    };
    nodal_into(&point, &mut out[..c.buses]);
    Ok(c.buses)
}

// The solution sheet that a solver's primal and dual vectors and its objective give.
pub fn read_dc_solution<'a>(
    lent: Lent<'a>,
    x: &'a [f64],
    z: &'a [f64],
    objective: f64,
    out: &mut [f64],
) -> Answer
    ensures { answered result out.new ≡ read_call (network_in lent.entry) x.now z.now objective out.old }
{
    let point = accept_raw(lent, Raw { x, z, objective })?;
    let count = sheet_length(point.site.grid.plan.counts, point.lay.active.pieces);
    if out.len() < count {
        return Err(Refusal::Short);
    }
    read_into(&point, out);
    Ok(count)
}
