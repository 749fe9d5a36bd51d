// Numbers 1, 3, 4 and 5 of a selector and a mode, with the network's; and products that may not fit a word.
#![tactic(auto)]

ghost use Rattle.std.specs.Prelude.{◌≡◌, true, ◌*◌, length, get_or, eqb, leb, IfOk};
ghost use Rattle.sequence.specs.Lists.{before};
ghost use Rattle.sequence.specs.Answers.{first_of, number_of};
ghost use Rattle.network.specs.Numbers.{sizes_hold};
ghost use Rattle.network.specs.Sites.{network_in, SiteOf};
ghost use Rattle.solution.specs.Sheet.{pieces};
ghost use Rattle.kkt_index.specs.Index.{linear_row_count, dim};
ghost use Rattle.contraction.specs.Selectors.{selector_in};
ghost use Rattle.selector_check.specs.Tests.{dim_of, selector_long, selector_holds, rows_below, selector_tests, Selected};

use contraction::Selector;
use float64::{raw_limit, within};
use interface::Mode;
use kkt_index::KktIdx;
use network::check::all_within;
use network::layout::{counts, wide};
use network::{Lent, Plan, Site};
use sequence::Refusal;

// Whether a times b is at most n.
pub fn fits(a: usize, b: usize, n: usize) -> bool
    ensures { result ≡ leb (a * b) n }
{
    a.checked_mul(b).is_some_and(|product| product <= n)
}

// Whether n is a times b.
pub fn is_product(a: usize, b: usize, n: usize) -> bool
    ensures { result ≡ eqb n (a * b) }
{
    a.checked_mul(b) == Some(n)
}

// The dimension of the network's KKT system.
fn dim_at(plan: &Plan<'_>) -> usize
    ensures { result ≡ dim plan.now.counts (pieces plan.now.counts plan.now.wiring.now) (linear_row_count plan.now.counts plan.now.wiring.now plan.now.readings.now) }
{
    KktIdx::of(plan).dim
}

// The same of a network as it is lent; where its own sizes don't hold any answer will do.
pub fn dim_of(lent: Lent<'_>) -> usize
    ensures { sizes_hold (network_in lent.entry) ≡ true → result ≡ dim_of (network_in lent.entry) }
{
    if !lent.sizes_hold() {
        return 0;
    }
    let plan = Plan {
        counts: counts(lent.wiring),
        wiring: lent.wiring,
        readings: lent.readings,
    };
    dim_at(&plan)
}

// The same of an accepted network.
pub fn site_dim(site: Site<'_>) -> usize
    ensures { result ≡ dim site.entry.grid.plan.counts (pieces site.entry.grid.plan.counts site.entry.grid.plan.wiring.now) (linear_row_count site.entry.grid.plan.counts site.entry.grid.plan.wiring.now site.entry.grid.plan.readings.now) }
{
    dim_at(&site.grid.plan)
}

// Whether the counts sum to n. They are taken off n one after the other, so that no sum wraps.
// A loop: `try_fold` with `checked_sub` was tried, and its promise left the proof open.
fn counts_sum(counts: &[u32], n: usize) -> bool
    ensures { result ≡ eqb (before (λ i. get_or counts.now i 0) (length counts.now)) n }
{
    let mut left = n;
    for count in counts {
        let Some(rest) = left.checked_sub(wide(*count)) else {
            return false;
        };
        left = rest;
    }
    left == 0
}

// Whether there are as many rows as weights, and as many entries as the counts say.
fn selector_is_long(selector: Selector<'_>) -> bool
    ensures { result ≡ selector_long (selector_in selector.entry) }
{
    let entries = selector.rows.len();
    entries == selector.weights.len() && counts_sum(selector.counts, entries)
}

// Whether the sign and the weights are within their limits.
fn selector_holds(selector: Selector<'_>) -> bool
    ensures { result ≡ selector_holds (selector_in selector.entry) }
{
    let limit = raw_limit();
    within(selector.sign, limit) && all_within(selector.weights, limit)
}

// Whether each row is below dim.
fn rows_below(rows: &[u32], dim: usize) -> bool
    ensures { result ≡ rows_below dim rows.now }
{
    rows.iter().all(|&row| wide(row) < dim)
}

// A network with a selector and a mode, and with a call's further sizes and values, where none of the numbers 1 to 5
// is due to any of them.
pub fn accept_selector<'a>(
    lent: Lent<'a>,
    mode: Mode,
    selector: Selector<'_>,
    sizes: bool,
    values: bool,
) -> Result<Site<'a>, Refusal>
    ensures number { number_of result ≡ first_of (selector_tests (network_in lent.entry) sizes values mode (selector_in selector.entry)) }
    ensures accepted { IfOk result (SiteOf lent.entry) }
    ensures selected { IfOk result (λ site. Selected (network_in lent.entry) sizes mode (selector_in selector.entry)) }
{
    let long = selector_is_long(selector) & sizes;
    let hold = selector_holds(selector) & values;
    let site = lent.accept_with(long, hold)?;
    if mode == Mode::Auto {
        return Err(Refusal::Kind);
    }
    if rows_below(selector.rows, site_dim(site)) {
        Ok(site)
    } else {
        Err(Refusal::Element)
    }
}
