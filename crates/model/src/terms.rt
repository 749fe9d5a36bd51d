// A linear row's value: its flow terms' sum plus its generation terms' sum.
ghost use Rattle.std.specs.Prelude.{◌≡◌, ℕ, ◌+◌, ◌<◌, ◌≤◌, length, get_or};
ghost use Rattle.network.specs.Layout.{term_start};
ghost use Rattle.network.specs.Numbers.{Wired, Termed};
ghost use Rattle.model.specs.Quantities.{term_sum, evaluate};

use network::layout::word;
use network::{Counts, Part};

// Where row q's terms begin.
// It asks for the wiring alone: a grid asks for the readings too, and a `Wiring` would be made for the call.
pub fn term_start(wiring: &[u32], c: Counts, q: usize) -> usize
    requires wired { Wired c wiring.now }
    requires q_le_rows { q ≤ c.rows }
    ensures { (result ≡ term_start c wiring.now q) × (result ≤ c.terms) }
{
    (0..q)
        .map(|i| word(wiring, c, Part::FlowTerms, i) + word(wiring, c, Part::GenerationTerms, i))
        .sum()
}

// The sum of `count` terms from a place on, each coefficient times the value that its index names.
fn term_sum(
    term_index: &[u32],
    term_coefficient: &[f64],
    xs: &[f64],
    at: usize,
    count: usize,
) -> f64
    requires count_in_bounds { at + count ≤ length term_index.now }
    requires count_in_bounds_2 { at + count ≤ length term_coefficient.now }
    requires by_index { (t : ℕ) → t < count → get_or term_index.now (at + t) 0 < length xs.now }
    ensures { result ≡ term_sum term_index.now term_coefficient.now xs.now at count }
{
    let mut sum = 0.0;
    for t in 0..count {
        let k = at + t;
        let i = term_index[k] as usize;
        sum += term_coefficient[k] * xs[i];
    }
    sum
}

// The value of row q at flows f and dispatch pg.
// It asks for the wiring and the terms alone: a site would ask for the readings too.
pub fn evaluate_at(
    wiring: &[u32],
    c: Counts,
    term_index: &[u32],
    term_coefficient: &[f64],
    q: usize,
    f: &[f64],
    pg: &[f64],
) -> f64
    requires wired { Wired c wiring.now }
    requires termed { Termed c wiring.now term_index.now term_coefficient.now }
    requires q_lt_rows { q < c.rows }
    requires f_len { length f.now ≡ c.branches }
    requires pg_len { length pg.now ≡ c.generators }
    ensures { result ≡ evaluate c wiring.now term_index.now term_coefficient.now q f.now pg.now }
{
    let at = term_start(wiring, c, q);
    let flows = word(wiring, c, Part::FlowTerms, q);
    let generations = word(wiring, c, Part::GenerationTerms, q);
    term_sum(term_index, term_coefficient, f, at, flows)
        + term_sum(term_index, term_coefficient, pg, at + flows, generations)
}
