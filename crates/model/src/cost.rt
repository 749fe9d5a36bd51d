// A generator's cost: the quadratic of its three readings, or the greatest of its segments.
ghost use Rattle.std.specs.Prelude.{◌≡◌, ◌<◌, ◌≤◌};
ghost use Rattle.network.specs.Layout.{segment_start};
ghost use Rattle.network.specs.Numbers.{Wired};
ghost use Rattle.model.specs.Quantities.{quadratic, segment_value, larger, piecewise, generator_cost};

use network::layout::word;
use network::{Counts, Field, Grid, Part, Plan};

// Where generator j's segments begin.
// It asks for the wiring alone: a grid asks for the readings too, and a `Wiring` would be made for the call.
pub fn segment_start(wiring: &[u32], c: Counts, j: usize) -> usize
    requires wired { Wired c wiring.now }
    requires j_le_generators { j ≤ c.generators }
    ensures { (result ≡ segment_start c wiring.now j) × (result ≤ c.segments) }
{
    (0..j).map(|i| word(wiring, c, Part::Segments, i)).sum()
}

// Segment s at a power: slope * power + intercept.
fn segment_value(plan: &Plan<'_>, power: f64, s: usize) -> f64
    requires { s < plan.now.counts.segments }
    ensures { result ≡ segment_value plan.now.counts plan.now.readings.now power s }
{
    plan.reading(Field::Slopes, s) * power + plan.reading(Field::Intercepts, s)
}

// The larger of two doubles, and of equal ones the first.
fn larger(a: f64, x: f64) -> f64
    ensures { result ≡ larger a x }
{
    if a < x { x } else { a }
}

// The quadratic cost of generator j: cq * power * power + cl * power + cc.
fn quadratic(plan: &Plan<'_>, j: usize, power: f64) -> f64
    requires { j < plan.now.counts.generators }
    ensures { result ≡ quadratic plan.now.counts plan.now.readings.now j power }
{
    let cq = plan.reading(Field::Cq, j);
    let cl = plan.reading(Field::Cl, j);
    let cc = plan.reading(Field::Cc, j);
    cq * power * power + cl * power + cc
}

// The greatest of generator j's segments at a power, from minus infinity on.
fn piecewise(grid: &Grid<'_>, j: usize, power: f64) -> f64
    requires { j < grid.now.plan.counts.generators }
    ensures { result ≡ piecewise grid.now.plan.counts grid.now.plan.wiring.now grid.now.plan.readings.now j power }
{
    let at = segment_start(grid.plan.wiring, grid.plan.counts, j);
    let count = grid.word(Part::Segments, j);
    let mut best = -1.0 / 0.0;
    for s in 0..count {
        best = larger(best, segment_value(&grid.plan, power, at + s));
    }
    best
}

// The cost of generator j at a power: piecewise where it has segments, else quadratic.
pub fn generator_cost_at(grid: &Grid<'_>, j: usize, power: f64) -> f64
    requires { j < grid.now.plan.counts.generators }
    ensures { result ≡ generator_cost grid.now.plan.counts grid.now.plan.wiring.now grid.now.plan.readings.now j power }
{
    let count = grid.word(Part::Segments, j);
    if count == 0 {
        quadratic(&grid.plan, j, power)
    } else {
        piecewise(grid, j, power)
    }
}
