// Numbers 1 to 3 of a network with its solution sheet.
#![tactic(auto)]

ghost use Rattle.std.specs.Prelude.{◌≡◌, true, ◌<◌, ◌≤◌, length, take, IfOk};
ghost use Rattle.sequence.specs.Answers.{first_of, number_of};
ghost use Rattle.float64.specs.Values.{sheet_limit};
ghost use Rattle.network.specs.Layout.{Few};
ghost use Rattle.network.specs.Numbers.{sizes_hold, all_within};
ghost use Rattle.network.specs.Sites.{network_in, SiteOf};
ghost use Rattle.solution.specs.Sheet.{sheet_length};
ghost use Rattle.solution_check.specs.Tests.{solution_long, looked_at, solution_tests, Solved};

use float64::sheet_limit;
use network::check::all_within;
use network::layout::counts;
use network::{Counts, Lent};
use sequence::Refusal;
use solution::{SolvedSite, piece_count};

// 5n + 3k + 5m + p + S + 2q + 1.
pub fn sheet_length(c: Counts, p: usize) -> usize
    requires few { Few c }
    requires p_le_generators { p ≤ c.generators }
    ensures { result ≡ sheet_length c p }
{
    5 * c.buses + 3 * c.generators + 5 * c.branches + p + c.segments + 2 * c.rows + 1
}

// Whether the sheet is as long as it should be; on a network whose own sizes don't hold any answer will do.
// The network's sizes are tested here and again in `accept_with`, which takes this answer before it reads the counts.
fn sheet_is_long(lent: Lent<'_>, solution: &[f64]) -> bool
    ensures { sizes_hold (network_in lent.entry) ≡ true → result ≡ solution_long (network_in lent.entry) solution.now }
{
    if !lent.sizes_hold() {
        return false;
    }
    let c = counts(lent.wiring);
    solution.len() == sheet_length(c, piece_count(lent.wiring, c))
}

// Whether the words that are looked at are sheet readings: all, or all but the last q + 1.
fn sheet_holds(solution: &[f64], c: Counts, whole: bool) -> bool
    requires { c.rows < length solution.now }
    ensures { result ≡ all_within sheet_limit (take (looked_at whole c solution.now) solution.now) }
{
    let looked_at = if whole {
        solution
    } else {
        &solution[..solution.len() - (c.rows + 1)]
    };
    all_within(looked_at, sheet_limit())
}

// A network with its solution sheet, where none of the numbers 1 to 3 is due to either.
pub fn accept_solution<'a>(
    lent: Lent<'a>,
    solution: &'a [f64],
    whole: bool,
) -> Result<SolvedSite<'a>, Refusal>
    ensures number { number_of result ≡ first_of (solution_tests whole (network_in lent.entry) solution.now) }
    ensures accepted { IfOk result (λ solved. SiteOf lent.entry solved.site) }
    ensures lent_sheet { IfOk result (λ solved. solved.sheet.now ≡ solution.now) }
    ensures solved { IfOk result (λ solved. Solved (network_in lent.entry) solution.now solved.site.grid.plan.counts) }
{
    let sizes = sheet_is_long(lent, solution);
    let site = lent.accept_with(sizes, true)?;
    let solved = SolvedSite {
        site,
        sheet: solution,
    };
    if sheet_holds(solution, site.grid.plan.counts, whole) {
        Ok(solved)
    } else {
        Err(Refusal::Reading)
    }
}
