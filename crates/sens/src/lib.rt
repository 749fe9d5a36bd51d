// sens/mod.rs, `forward_adjoint` around an outside solve: a call before it, one for its right side, and one after it.
#![tactic(auto)]

ghost use Rattle.std.specs.Prelude.{◌≡◌, ◌*◌, ◌≤◌, length, IfOk};
ghost use Rattle.sequence.specs.Answers.{first_of, number_of, answered};
ghost use Rattle.network.specs.Sites.{network_in, SiteOf};
ghost use Rattle.contraction.specs.Contraction.{selection_sheet};
ghost use Rattle.contraction.specs.Selectors.{selector_in};
ghost use Rattle.sens.specs.Calls.{count_fits, first_tests, FirstAccepted, fills_if, first_call, front_of, side_of, solved_long, third_long, third_holds, third_tests, third_call, ThirdAccepted};

use contraction::{Entries, Selector, Sides};
use float64::{parameter_limit, sheet_limit};
use interface::Mode;
use network::check::all_within;
use network::{Lent, Site};
use selector_check::{accept_selector, dim_of, fits, is_product, site_dim};
use sequence::{Answer, Refusal};

// Whether the count of the right side is a `usize`.
fn count_fits(mode: Mode, dim: usize, columns: usize) -> bool
    ensures { result ≡ count_fits mode dim columns }
{
    mode != Mode::Forward || fits(dim, columns, usize::MAX)
}

// The first call's network, where none of its numbers is due but its output's room.
fn accept_first<'a>(
    lent: Lent<'a>,
    mode: Mode,
    selector: Selector<'_>,
    columns: usize,
) -> Result<Site<'a>, Refusal>
    ensures number { number_of result ≡ first_of (first_tests (network_in lent.entry) mode (selector_in selector.entry) columns) }
    ensures accepted { IfOk result (SiteOf lent.entry) }
    ensures first_accepted { IfOk result (λ site. FirstAccepted (network_in lent.entry) mode (selector_in selector.entry) columns) }
{
    let sizes = count_fits(mode, dim_of(lent), columns);
    accept_selector(lent, mode, selector, sizes, true)
}

// The selection sheet, where it has room.
fn lay_selection(entries: Entries<'_>, selection: &mut [f64]) -> Answer
    ensures { answered result selection.new ≡ fills_if (selection_sheet (selector_in entries.entry.selector) entries.entry.dim) selection.old }
{
    let elements = entries.selector.counts.len();
    if !fits(entries.dim, elements, selection.len()) {
        return Err(Refusal::Short);
    }
    entries.select(selection);
    Ok(entries.dim * elements)
}

// Before the solve: the count of the right side, and when adjoint the selection sheet.
pub fn contraction_first(
    lent: Lent<'_>,
    mode: Mode,
    selector: Selector<'_>,
    columns: usize,
    selection: &mut [f64],
) -> Answer
    ensures { answered result selection.new ≡ first_call (network_in lent.entry) mode (selector_in selector.entry) columns selection.old }
{
    let site = accept_first(lent, mode, selector, columns)?;
    let dim = site_dim(site);
    match mode {
        Mode::Forward => Ok(dim * columns),
        Mode::Adjoint => lay_selection(Entries { selector, dim }, selection),
        Mode::Auto => Err(Refusal::Kind),
    }
}

// The front of a sheet, and an empty part where it is shorter.
fn front(sheet: &[f64], count: usize) -> &[f64]
    ensures { result.now ≡ front_of sheet.now count }
{
    sheet.get(..count).unwrap_or(&[])
}

// The right side to be solved: of the parameter sheet when forward, of the selection sheet when adjoint.
pub fn right_side<'a>(
    mode: Mode,
    count: usize,
    parameter: &'a [f64],
    selection: &'a [f64],
) -> &'a [f64]
    ensures { result.now ≡ side_of mode count parameter.now selection.now }
{
    match mode {
        Mode::Forward => front(parameter, count),
        Mode::Adjoint => front(selection, count),
        Mode::Auto => &[],
    }
}

// Whether the solved columns are as long as they should be, by the mode's rule; `Auto` has none.
fn solved_is_long(mode: Mode, dim: usize, columns: usize, elements: usize, n: usize) -> bool
    ensures { result ≡ solved_long mode dim columns elements n }
{
    match mode {
        Mode::Forward => is_product(dim, columns, n),
        Mode::Adjoint => is_product(dim, elements, n),
        Mode::Auto => true,
    }
}

// Whether the parameter sheet holds its columns, and the solved columns are as long as they should be.
fn third_is_long(
    mode: Mode,
    dim: usize,
    columns: usize,
    elements: usize,
    parameter: usize,
    solved: usize,
) -> bool
    ensures { result ≡ third_long mode dim columns elements parameter solved }
{
    fits(dim, columns, parameter) && solved_is_long(mode, dim, columns, elements, solved)
}

// Whether the parameter columns and the solved columns are within their limits; where the parameter sheet is
// too short any answer will do.
fn third_holds(dim: usize, columns: usize, parameter: &[f64], solved: &[f64]) -> bool
    ensures { dim * columns ≤ length parameter.now → result ≡ third_holds (dim * columns) parameter.now solved.now }
{
    fits(dim, columns, parameter.len())
        && all_within(&parameter[..dim * columns], parameter_limit())
        && all_within(solved, sheet_limit())
}

// The third call's network, where none of its numbers is due but its output's room.
fn accept_third<'a>(
    lent: Lent<'a>,
    mode: Mode,
    selector: Selector<'_>,
    columns: usize,
    parameter: &[f64],
    solved: &[f64],
) -> Result<Site<'a>, Refusal>
    ensures number { number_of result ≡ first_of (third_tests (network_in lent.entry) mode (selector_in selector.entry) columns parameter.now solved.now) }
    ensures accepted { IfOk result (SiteOf lent.entry) }
    ensures third_accepted { IfOk result (λ site. ThirdAccepted (network_in lent.entry) mode (selector_in selector.entry) columns parameter.now solved.now) }
{
    let dim = dim_of(lent);
    let elements = selector.counts.len();
    let sizes = third_is_long(mode, dim, columns, elements, parameter.len(), solved.len());
    let values = third_holds(dim, columns, parameter, solved);
    accept_selector(lent, mode, selector, sizes, values)
}

// After the solve: the solved columns contracted, "element by element, columns within".
pub fn contraction_third<'a>(
    lent: Lent<'_>,
    mode: Mode,
    selector: Selector<'a>,
    columns: usize,
    parameter: &'a [f64],
    solved: &'a [f64],
    out: &mut [f64],
) -> Answer
    ensures { answered result out.new ≡ third_call (network_in lent.entry) mode (selector_in selector.entry) columns parameter.now solved.now out.old }
{
    let site = accept_third(lent, mode, selector, columns, parameter, solved)?;
    let elements = selector.counts.len();
    if !fits(elements, columns, out.len()) {
        return Err(Refusal::Short);
    }
    let entries = Entries {
        selector,
        dim: site_dim(site),
    };
    let sides = Sides {
        mode,
        entries,
        columns,
        parameter,
        solved,
    };
    sides.contract(out);
    Ok(elements * columns)
}
