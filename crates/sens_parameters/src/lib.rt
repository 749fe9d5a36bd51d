// sens/dc.rs, `parameter_jacobian` as a public call.
#![tactic(auto)]

ghost use Rattle.std.specs.Prelude.{◌≡◌, ℕ, ◌<◌, length, get_or, IfOk};
ghost use Rattle.sequence.specs.Answers.{number_of, answered};
ghost use Rattle.network.specs.Sites.{network_in};
ghost use Rattle.parameter_column.specs.Columns.{elements};
ghost use Rattle.sens_parameters.specs.Calls.{served_of, columns_hold, is_cost, some_piecewise, columns_number, columns_filled, columns_laid, jacobian_call};
ghost use Rattle.sens_parameters.specs.Sites.{jacobian_at, number_at};

use interface::{CostTerm, GB, Parameter, Power};
use kkt_index::KktIdx;
use network::layout::wide;
use network::{Counts, Lent, Part, Plan};
use parameter_column::Served;
use parameter_sheet::Jacobian;
use selector_check::fits;
use sens_snap::duals::nu_flow_into;
use sequence::{Answer, Refusal};
use solution::{OperatingPoint, PointSite, SolvedSite};
use solution_check::accept_solution;

// Active demand, the two costs, line limit, susceptance, switching and constraint limit are served.
pub fn served_of(p: Parameter) -> Option<Served>
    ensures { result ≡ served_of p }
{
    match p {
        Parameter::Demand(Power::Active) => Some(Served::Demand),
        Parameter::Cost(CostTerm::Quadratic) => Some(Served::CostQuadratic),
        Parameter::Cost(CostTerm::Linear) => Some(Served::CostLinear),
        Parameter::LineLimit => Some(Served::LineLimit),
        Parameter::SeriesAdmittance(GB::Susceptance) => Some(Served::BranchSusceptance),
        Parameter::Switching => Some(Served::Switching),
        Parameter::ConstraintLimit => Some(Served::ConstraintLimit),
        _ => None,
    }
}

// How many elements a parameter has.
fn parameter_len(c: Counts, k: Served) -> usize
    ensures { result ≡ elements c k }
{
    match k {
        Served::Demand => c.buses,
        Served::CostQuadratic | Served::CostLinear => c.generators,
        Served::LineLimit | Served::BranchSusceptance | Served::Switching => c.branches,
        Served::ConstraintLimit => c.rows,
    }
}

// Whether every column is one of the parameter's elements.
fn columns_hold(c: Counts, k: Served, columns: &[u32]) -> bool
    ensures { result ≡ columns_hold c k columns.now }
{
    let len = parameter_len(c, k);
    columns.iter().all(|&column| wide(column) < len)
}

// Whether one of the generators has a piecewise cost.
fn some_piecewise(plan: &Plan<'_>, columns: &[u32]) -> bool
    requires { (t : ℕ) → t < length columns.now → get_or columns.now t 0 < plan.now.counts.generators }
    ensures { result ≡ some_piecewise plan.now.counts plan.now.wiring.now columns.now }
{
    columns
        .iter()
        .any(|&column| plan.word(Part::Segments, wide(column)) != 0)
}

// Whether the parameter is a cost.
fn is_cost(k: Served) -> bool
    ensures { result ≡ is_cost k }
{
    matches!(k, Served::CostQuadratic | Served::CostLinear)
}

// The columns are a parameter's elements, and a cost's are not piecewise.
fn accept_columns(plan: &Plan<'_>, k: Served, columns: &[u32]) -> Result<(), Refusal>
    ensures number { number_of result ≡ columns_number plan.now.counts plan.now.wiring.now k columns.now }
    ensures by_index { IfOk result (λ ok. (t : ℕ) → t < length columns.now → get_or columns.now t 0 < elements plan.now.counts k) }
{
    if !columns_hold(plan.counts, k, columns) {
        return Err(Refusal::Element);
    }
    if is_cost(k) && some_piecewise(plan, columns) {
        return Err(Refusal::Piecewise);
    }
    Ok(())
}

// The columns of a served parameter, where they have room.
fn lay_columns(
    solved: &SolvedSite<'_>,
    parameter: Served,
    columns: &[u32],
    sheet: &mut [f64],
) -> Answer
    requires { (t : ℕ) → t < length columns.now → get_or columns.now t 0 < elements solved.now.site.grid.plan.counts parameter }
    ensures { answered result sheet.new ≡ columns_laid columns.now (jacobian_at solved.now parameter columns.now) sheet.old }
{
    let grid = solved.site.grid;
    let index = KktIdx::of(&grid.plan);
    if !fits(columns.len(), index.dim, sheet.len()) {
        return Err(Refusal::Short);
    }
    let site = PointSite {
        point: OperatingPoint {
            grid,
            pieces: index.pieces,
            sheet: solved.sheet,
        },
        term_index: solved.site.term_index,
        term_coefficient: solved.site.term_coefficient,
    };
    let mut nu_flow = [0.0; 512];
    nu_flow_into(&site, &mut nu_flow);
    let jacobian = Jacobian {
        site,
        nu_flow: &nu_flow,
        index,
        parameter,
    };
    jacobian.fill_sheet(columns, sheet);
    Ok(columns.len())
}

// The columns of a served parameter, or why they are refused.
fn served_columns(
    solved: &SolvedSite<'_>,
    parameter: Served,
    columns: &[u32],
    sheet: &mut [f64],
) -> Answer
    ensures { answered result sheet.new ≡ columns_filled (number_at solved.now parameter columns.now sheet.old) columns.now (jacobian_at solved.now parameter columns.now) sheet.old }
{
    accept_columns(&solved.site.grid.plan, parameter, columns)?;
    lay_columns(solved, parameter, columns, sheet)
}

// The partials of the KKT residual in a parameter, one column for each listed element.
pub fn parameter_jacobian(
    lent: Lent<'_>,
    solution: &[f64],
    p: Parameter,
    columns: &[u32],
    sheet: &mut [f64],
) -> Answer
    ensures { answered result sheet.new ≡ jacobian_call (network_in lent.entry) solution.now p columns.now sheet.old }
{
    let solved = accept_solution(lent, solution, false)?;
    match served_of(p) {
        Some(parameter) => served_columns(&solved, parameter, columns, sheet),
        None if columns.is_empty() => Ok(0),
        None => Err(Refusal::Kind),
    }
}
