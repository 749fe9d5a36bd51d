// sens/dc.rs, the matrix as a public call: the KKT Jacobian as triplets.
#![tactic(auto)]

ghost use Rattle.std.specs.Prelude.{◌≡◌, []};
ghost use Rattle.sequence.specs.Sheets.{lays_if, listed};
ghost use Rattle.network.specs.Sites.{network_in};
ghost use Rattle.kkt.specs.Slots.Rule.{first_place};
ghost use Rattle.kkt.specs.Matrix.{kkt_matrix_list};
ghost use Rattle.sens_dc.specs.Calls.{matrix_call};

use kkt_laws::most;
use kkt_list::put_kkt;
use network::Lent;
use sequence::Answer;
use sequence::laying::lay;
use solution::SolvedSite;
use solution_check::accept_solution;

// The KKT list into three sheets.
// The sheets stay single here and below, as C lends them.
pub fn lay_kkt(
    solved: &SolvedSite<'_>,
    rows: &mut [u32],
    cols: &mut [u32],
    values: &mut [f64],
) -> Answer
    ensures { listed result rows.new cols.new values.new ≡ lays_if (kkt_matrix_list first_place solved.now.site.grid.plan.counts solved.now.site.grid.plan.wiring.now solved.now.site.grid.plan.readings.now solved.now.site.term_index.now solved.now.site.term_coefficient.now solved.now.sheet.now) rows.old cols.old values.old }
{
    lay(
        rows,
        cols,
        values,
        most(solved.site.grid.plan.counts),
        &|sink| put_kkt(solved, sink),
    )
}

// The KKT matrix of a network at its solution sheet, snapped, as triplets in the original's order.
pub fn kkt_triplets(
    lent: Lent<'_>,
    solution: &[f64],
    rows: &mut [u32],
    cols: &mut [u32],
    values: &mut [f64],
) -> Answer
    ensures { listed result rows.new cols.new values.new ≡ matrix_call first_place [] (network_in lent.entry) solution.now rows.old cols.old values.old }
{
    let solved = accept_solution(lent, solution, false)?;
    lay_kkt(&solved, rows, cols, values)
}
