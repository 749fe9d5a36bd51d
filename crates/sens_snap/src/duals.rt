// The linear rows' multipliers, and the flow-definition duals that they enter.
ghost use Rattle.std.specs.Prelude.{◌≡◌, ℕ, ◌*◌, ◌<◌, ◌≤◌, length, get_or};
ghost use Rattle.std.specs.Float.{nan, binary64};
ghost use Rattle.std.specs.Float.Ieee.{sub};
ghost use Rattle.sequence.specs.Lists.{made, front};
ghost use Rattle.network.specs.Layout.{term_start};
ghost use Rattle.solution.specs.declared.Entry.TheVariants.{LamUb, LamLb};
ghost use Rattle.solution.specs.Sheet.{solved};
ghost use Rattle.sens_snap.specs.Points.{dual_sheet_at, nu_flow_row_at, nu_flow_sheet_at};

use network::Part;
use network::layout::wide;
use snapping::snap_linear_at;
use solution::{Entry, OperatingPoint, PointSite};

// Each row's multipliers: upper, lower, equality.
// The words are written by index: of what `chunks_exact_mut` lends a proof knows only how long it is.
pub fn snap_linear_into(site: &PointSite<'_>, out: &mut [f64])
    requires { 3 * site.now.point.grid.plan.counts.rows ≤ length out.old }
    ensures out_after { out.new ≡ front (dual_sheet_at site.now.point site.now.term_index.now site.now.term_coefficient.now) out.old }
    ensures sheet_len { length (dual_sheet_at site.now.point site.now.term_index.now site.now.term_coefficient.now) ≡ 3 * site.now.point.grid.plan.counts.rows }
{
    let to = site.point.grid.plan.counts.rows;
    for q in 0..to {
        let d = snap_linear_at(site, q);
        out[3 * q] = d.upper;
        out[3 * q + 1] = d.lower;
        out[3 * q + 2] = d.equality;
    }
}

// lam_ub - lam_lb of every branch.
fn bound_duals(point: &OperatingPoint<'_>, out: &mut [f64])
    requires { length out.old ≡ point.now.grid.plan.counts.branches }
    ensures { out.new ≡ made (λ e. sub binary64 (solved point.now.grid.plan.counts point.now.pieces point.now.sheet.now LamUb e) (solved point.now.grid.plan.counts point.now.pieces point.now.sheet.now LamLb e)) point.now.grid.plan.counts.branches }
{
    for (e, dual) in out.iter_mut().enumerate() {
        *dual = point.value(Entry::LamUb, e) - point.value(Entry::LamLb, e);
    }
}

// Row q's flow terms, `count` from `start` on, each coefficient times the row's signed multiplier at its branch.
// The terms are read by index: for a `zip` both slices would be cut first, with a bound for each cut.
fn add_row(site: &PointSite<'_>, q: usize, start: usize, out: &mut [f64])
    requires { (q < site.now.point.grid.plan.counts.rows) × (start ≡ term_start site.now.point.grid.plan.counts site.now.point.grid.plan.wiring.now q) × (site.now.point.grid.plan.counts.branches ≤ length out.old) }
    ensures by_index { (e : ℕ) → e < site.now.point.grid.plan.counts.branches → get_or out.new e nan ≡ nu_flow_row_at site.now.point site.now.term_index.now site.now.term_coefficient.now e q (get_or out.old e nan) }
    ensures by_index_2 { (e : ℕ) → site.now.point.grid.plan.counts.branches ≤ e → get_or out.new e nan ≡ get_or out.old e nan }
    ensures out_len_unchanged { length out.new ≡ length out.old }
{
    let count = site.point.grid.word(Part::FlowTerms, q);
    let dual = snap_linear_at(site, q).signed();
    for t in 0..count {
        let e = wide(site.term_index[start + t]);
        out[e] += site.term_coefficient[start + t] * dual;
    }
}

// The flow-definition dual of every branch.
pub fn nu_flow_into(site: &PointSite<'_>, out: &mut [f64])
    requires { site.now.point.grid.plan.counts.branches ≤ length out.old }
    ensures out_after { out.new ≡ front (nu_flow_sheet_at site.now.point site.now.term_index.now site.now.term_coefficient.now) out.old }
    ensures out_len_unchanged { length out.new ≡ length out.old }
{
    let c = site.point.grid.plan.counts;
    let to = c.rows;
    bound_duals(&site.point, &mut out[..c.branches]);
    let mut start = 0;
    for q in 0..to {
        add_row(site, q, start, out);
        start += site.point.grid.plan.row_terms(q);
    }
}
