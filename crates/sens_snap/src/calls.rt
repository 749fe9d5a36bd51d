// The three calls.
ghost use Rattle.std.specs.Prelude.{◌≡◌};
ghost use Rattle.sequence.specs.Answers.{answered};
ghost use Rattle.network.specs.Sites.{network_in};
ghost use Rattle.sens_snap.specs.Points.{PiecesAre};
ghost use Rattle.sens_snap.specs.Calls.{snap_call, snap_linear_call, nu_flow_call};

use crate::duals::{nu_flow_into, snap_linear_into};
use crate::sheet::{CountedPoint, snap_into};
use network::Lent;
use sequence::{Answer, Refusal};
use solution::{OperatingPoint, PointSite, SolvedSite, piece_count};
use solution_check::accept_solution;

// The operating point of a network with its solution sheet.
fn point_of<'a>(solved: &SolvedSite<'a>) -> PointSite<'a>
    ensures grid { result.point.grid ≡ solved.now.site.grid }
    ensures pieces { PiecesAre result.point }
    ensures sheet { result.point.sheet.now ≡ solved.now.sheet.now }
    ensures term_index { result.term_index.now ≡ solved.now.site.term_index.now }
    ensures term_coefficient { result.term_coefficient.now ≡ solved.now.site.term_coefficient.now }
{
    let site = solved.site;
    PointSite {
        point: OperatingPoint {
            grid: site.grid,
            pieces: piece_count(site.grid.plan.wiring, site.grid.plan.counts),
            sheet: solved.sheet,
        },
        term_index: site.term_index,
        term_coefficient: site.term_coefficient,
    }
}

// The solution sheet snapped to strict complementarity.
pub fn snap(lent: Lent<'_>, solution: &[f64], out: &mut [f64]) -> Answer
    ensures { answered result out.new ≡ snap_call (network_in lent.entry) solution.now out.old }
{
    let solved = accept_solution(lent, solution, true)?;
    let count = solution.len();
    if out.len() < count {
        return Err(Refusal::Short);
    }
    let counted = CountedPoint {
        point: point_of(&solved).point,
    };
    snap_into(&counted, out);
    Ok(count)
}

// The snapped multipliers of every linear row: upper, lower, equality.
pub fn snap_linear(lent: Lent<'_>, solution: &[f64], out: &mut [f64]) -> Answer
    ensures { answered result out.new ≡ snap_linear_call (network_in lent.entry) solution.now out.old }
{
    let solved = accept_solution(lent, solution, true)?;
    let count = 3 * solved.site.grid.plan.counts.rows;
    if out.len() < count {
        return Err(Refusal::Short);
    }
    let point = point_of(&solved);
    snap_linear_into(&point, out);
    Ok(count)
}

// The flow-definition dual of every branch.
pub fn nu_flow_values(lent: Lent<'_>, solution: &[f64], out: &mut [f64]) -> Answer
    ensures { answered result out.new ≡ nu_flow_call (network_in lent.entry) solution.now out.old }
{
    let solved = accept_solution(lent, solution, true)?;
    let count = solved.site.grid.plan.counts.branches;
    if out.len() < count {
        return Err(Refusal::Short);
    }
    let point = point_of(&solved);
    nu_flow_into(&point, out);
    Ok(count)
}
