// Numbers 1 to 3 of a network with a solver's raw vectors.
#![tactic(auto)]

ghost use Rattle.std.specs.Prelude.{◌≡◌, true, IfOk};
ghost use Rattle.sequence.specs.Answers.{first_of, number_of};
ghost use Rattle.network.specs.Numbers.{sizes_hold};
ghost use Rattle.network.specs.Sites.{network_in, SiteOf};
ghost use Rattle.raw_check.specs.Tests.{raw_long, raw_holds, raw_tests, RawAccepted};

use float64::{raw_limit, within};
use network::check::all_within;
use network::layout::counts;
use network::{Lent, Plan};
use opf_layout::{OpfLayout, Raw, RawPoint};
use sequence::Refusal;

// Whether the raw vectors are as long as the program; on a network whose own sizes don't hold any answer
// will do.
fn raw_is_long(lent: Lent<'_>, raw: Raw<'_>) -> bool
    ensures { sizes_hold (network_in lent.entry) ≡ true → result ≡ raw_long (network_in lent.entry) raw.entry.x.now raw.entry.z.now }
{
    if !lent.sizes_hold() {
        return false;
    }
    let c = counts(lent.wiring);
    let plan = Plan {
        counts: c,
        wiring: lent.wiring,
        readings: lent.readings,
    };
    let lay = OpfLayout::of(&plan);
    raw.x.len() == lay.nvar && raw.z.len() == lay.ncon
}

// Whether every raw word is a raw reading.
fn raw_holds(raw: Raw<'_>) -> bool
    ensures { result ≡ raw_holds raw.entry.x.now raw.entry.z.now raw.entry.objective }
{
    let limit = raw_limit();
    all_within(raw.x, limit) && all_within(raw.z, limit) && within(raw.objective, limit)
}

// A network with the raw vectors and objective, where none of the numbers 1 to 3 is due to either.
pub fn accept_raw<'a>(lent: Lent<'a>, raw: Raw<'a>) -> Result<RawPoint<'a>, Refusal>
    ensures number { number_of result ≡ first_of (raw_tests (network_in lent.entry) raw.entry.x.now raw.entry.z.now raw.entry.objective) }
    ensures accepted { IfOk result (λ point. SiteOf lent.entry point.site) }
    ensures raw_accepted { IfOk result (λ point. RawAccepted (network_in lent.entry) raw.entry.x.now raw.entry.z.now point.site.grid.plan.counts) }
    ensures kept { IfOk result (λ point. point.raw ≡ raw.entry) }
{
    let sizes = raw_is_long(lent, raw);
    let site = lent.accept_with(sizes, true)?;
    if !raw_holds(raw) {
        return Err(Refusal::Reading);
    }
    let lay = OpfLayout::of(&site.grid.plan);
    Ok(RawPoint { site, raw, lay })
}
