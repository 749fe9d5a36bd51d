// problem/mod.rs, `ProgramBuilder` without CSC. An entry of P or A is a triplet or none, which callers put into a lent
// sink, in the order written and not merged; the sheets for q and for b are lent.
#![tactic(auto)]

ghost use Rattle.std.specs.Prelude.{◌≡◌, ◌<◌, length};
ghost use Rattle.program_builder.specs.Builder.{entry, added, replaced};

use sequence::Triplet;

// Entry `A[r, c]`; zeros are dropped.
#[inline(always)]
pub fn a(r: usize, c: usize, v: f64) -> Option<Triplet>
    requires { (r < 0x1_0000_0000) × (c < 0x1_0000_0000) }
    ensures { result ≡ entry r c v }
{
    let triplet = Triplet {
        row: r as u32,
        col: c as u32,
        value: v,
    };
    (v != 0.0).then_some(triplet)
}

// Diagonal entry `P[c, c]`.
#[inline(always)]
pub fn quad(c: usize, v: f64) -> Option<Triplet>
    requires { c < 0x1_0000_0000 }
    ensures { result ≡ entry c c v }
{
    a(c, c, v)
}

// The linear objective's coefficient `q[c]`: adds.
pub fn lin(q: &mut [f64], c: usize, v: f64)
    requires { c < length q.old }
    ensures { q.new ≡ added q.old c v }
{
    q[c] += v;
}

// The right side of row r: sets.
pub fn rhs(b: &mut [f64], r: usize, v: f64)
    requires { r < length b.old }
    ensures { b.new ≡ replaced b.old r v }
{
    b[r] = v;
}
