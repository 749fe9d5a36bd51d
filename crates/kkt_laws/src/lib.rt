// How many triplets the KKT list has at most.
#![tactic(auto)]

ghost use Rattle.std.specs.Prelude.{◌≡◌, ◌≤◌};
ghost use Rattle.network.specs.Layout.{Few};
ghost use Rattle.kkt.specs.Matrix.{most};

use network::Counts;

// 26m + 10n + 9k + 5S + 2R + 4T + 2q.
pub fn most(c: Counts) -> usize
    requires { Few c }
    ensures { (result ≡ most c) × (result ≤ 27552) }
{
    26 * c.branches
        + 10 * c.buses
        + 9 * c.generators
        + 5 * c.segments
        + 2 * c.references
        + 4 * c.terms
        + 2 * c.rows
}
