// The susceptance matrix as triplets, by row, then column.
#![tactic(auto)]

ghost use Rattle.std.specs.Prelude.{◌≡◌, true, not, ◌||◌, ℕ, ◌+◌, ◌*◌, ◌<◌, ◌≤◌, length, get_or, eqb};
ghost use Rattle.std.specs.Float.{nan};
ghost use Rattle.float64.specs.Values.{add_at, sub_at};
ghost use Rattle.sequence.specs.Links.{Links};
ghost use Rattle.sequence.specs.Sheets.{item};
ghost use Rattle.sequence.specs.Sinks.{Gains};
ghost use Rattle.network.specs.Numbers.{Wired};
ghost use Rattle.susceptance.specs.Susceptance.{weight, cell_turn, susceptance_row, susceptance_coo};
ghost use Rattle.susceptance.specs.Incidence.{end_at, takes, cell_sum, cell_mark, mark_at, marked, RowRoom, Stepped, EndStepped, RowBlank, RowHeld};

pub mod ends;

pub use ends::{Ends, branch_of, is_from};
use network::layout::{wide, word};
use network::{Counts, Field, Grid, Part, Plan};
use sequence::linking::link;
use sequence::marking::put_marked;
use sequence::{Sink, Triplet};

// The bus of end x.
fn end_at(wiring: &[u32], c: Counts, x: usize) -> usize
    requires wired { Wired c wiring.now }
    requires x_bound { x < 2 * c.branches }
    ensures { result ≡ end_at c wiring.now x }
{
    let part = if is_from(x) { Part::BrFrom } else { Part::BrTo };
    word(wiring, c, part, branch_of(x))
}

// The chains of the branches' ends, by bus.
// It asks for the wiring alone (a grid asks for more, a `Wiring` would be made for it), and writes `head` and `next`.
pub fn link_ends(wiring: &[u32], c: Counts, head: &mut [u32], next: &mut [u32])
    requires wired { Wired c wiring.now }
    requires buses_in_bounds { (c.buses ≤ length head.old) × (2 * c.branches ≤ length next.old) }
    ensures { Links (end_at c wiring.now) c.buses (2 * c.branches) 0 head.new next.new }
{
    link(
        c.buses,
        2 * c.branches,
        |x| end_at(wiring, c, x),
        head,
        next,
    );
}

// Minus the susceptance times the switch.
fn weight(plan: &Plan<'_>, e: usize) -> f64
    requires { e < plan.now.counts.branches }
    ensures { result ≡ weight plan.now.counts plan.now.readings.now e }
{
    -plan.reading(Field::Susceptance, e) * plan.reading(Field::Sw, e)
}

// x more, where it is met.
fn add_at(met: bool, x: f64, a: f64) -> f64
    ensures { result ≡ add_at met x a }
{
    if met { a + x } else { a }
}

// x less, where it is met.
fn sub_at(met: bool, x: f64, a: f64) -> f64
    ensures { result ≡ sub_at met x a }
{
    if met { a - x } else { a }
}

// A branch from p to q of weight x, into the sums of row i.
fn sum_branch(i: usize, p: usize, q: usize, x: f64, acc: &mut [f64])
    requires { (p < length acc.old) × (q < length acc.old) }
    ensures { (j : ℕ) → get_or acc.new j nan ≡ cell_sum i j p q x (get_or acc.old j nan) }
{
    acc[p] = add_at(i == p, x, acc[p]);
    acc[q] = add_at(i == q, x, acc[q]);
    acc[q] = sub_at(i == p, x, acc[q]);
    acc[p] = sub_at(i == q, x, acc[p]);
}

// Columns p and q, and their blocks.
fn mark(p: usize, q: usize, hit: &mut [u32])
    requires { (p < 256) × (q < 256) × (16 + p < length hit.old) × (16 + q < length hit.old) }
    ensures { hit.new ≡ marked p q hit.old }
{
    hit[16 + p] = 1;
    hit[16 + q] = 1;
    hit[p / 16] = 1;
    hit[q / 16] = 1;
}

// A branch of bus i, into the sums and the marks of row i: none where its weight is zero.
// Here and below `acc` and `hit` stay single: with a struct of two `&mut` each function would promise to keep the two.
fn step(n: usize, i: usize, p: usize, q: usize, x: f64, acc: &mut [f64], hit: &mut [u32])
    requires row_room { RowRoom n acc.old hit.old }
    requires p_lt_n { (p < n) × (q < n) × ((eqb i p || eqb i q) ≡ true) }
    ensures { Stepped (λ j. cell_turn i j p q x) (λ j. cell_mark i j p q x) acc.old hit.old acc.new hit.new }
{
    if x == 0.0 {
        return;
    }
    sum_branch(i, p, q, x, acc);
    mark(p, q, hit);
}

// Whether end x of bus i takes its branch, which is from p.
fn takes(i: usize, x: usize, p: usize) -> bool
    ensures { result ≡ takes i x p }
{
    is_from(x) || i != p
}

// End x of bus i's chain, into row i.
fn end_step(grid: &Grid<'_>, i: usize, x: usize, acc: &mut [f64], hit: &mut [u32])
    requires row_room { RowRoom grid.now.plan.counts.buses acc.old hit.old }
    requires x_bound { (x < 2 * grid.now.plan.counts.branches) × (end_at grid.now.plan.counts grid.now.plan.wiring.now x ≡ i) }
    ensures { EndStepped grid.now.plan.counts grid.now.plan.wiring.now grid.now.plan.readings.now i x acc.old hit.old acc.new hit.new }
{
    let e = branch_of(x);
    let p = grid.word(Part::BrFrom, e);
    if !takes(i, x, p) {
        return;
    }
    let q = grid.word(Part::BrTo, e);
    step(
        grid.plan.counts.buses,
        i,
        p,
        q,
        weight(&grid.plan, e),
        acc,
        hit,
    );
}

// The ends of bus i's chain, and no other branch, into row i.
fn walk(ends: &Ends<'_>, i: usize, acc: &mut [f64], hit: &mut [u32])
    requires row_room { RowRoom ends.now.grid.plan.counts.buses acc.old hit.old }
    requires i_lt_buses { i < ends.now.grid.plan.counts.buses }
    requires row_blank { RowBlank ends.now.grid.plan.counts.buses acc.old hit.old }
    ensures { RowHeld ends.now.grid.plan.counts ends.now.grid.plan.wiring.now ends.now.grid.plan.readings.now i acc.new hit.new }
{
    let count = 2 * ends.grid.plan.counts.branches;
    // Along the links, which no range counts.
    let mut x = wide(ends.head[i]);
    while x < count {
        end_step(&ends.grid, i, x, acc, hit);
        x = wide(ends.next[x]);
    }
}

// Row i by column, made anew.
pub fn make_row(ends: &Ends<'_>, i: usize, acc: &mut [f64], hit: &mut [u32])
    requires row_room { RowRoom ends.now.grid.plan.counts.buses acc.old hit.old }
    requires i_lt_buses { i < ends.now.grid.plan.counts.buses }
    ensures { RowHeld ends.now.grid.plan.counts ends.now.grid.plan.wiring.now ends.now.grid.plan.readings.now i acc.new hit.new }
{
    acc[..ends.grid.plan.counts.buses].fill(0.0);
    hit[..16 + ends.grid.plan.counts.buses].fill(0);
    walk(ends, i, acc, hit);
}

// Column j of row i, kept where it is marked.
// `acc` and `hit` are only read here, and stay single as where they are written.
fn cell(acc: &[f64], hit: &[u32], i: usize, j: usize) -> Option<Triplet>
    requires { (j < length acc.now) × (16 + j < length hit.now) × (i < 256) × (j < 256) }
    ensures { result ≡ item (not (eqb (mark_at hit.now j) 0)) i j (get_or acc.now j nan) }
{
    if hit[16 + j] == 0 {
        return None;
    }
    Some(Triplet {
        row: i as u32,
        col: j as u32,
        value: acc[j],
    })
}

// Row i, into the sheets. Of its two calls only the first is kkt_cells' too.
fn put_row(ends: &Ends<'_>, i: usize, acc: &mut [f64], hit: &mut [u32], sink: &mut Sink<'_>)
    requires row_room { RowRoom ends.now.grid.plan.counts.buses acc.old hit.old }
    requires i_lt_buses { (i < ends.now.grid.plan.counts.buses) × (sink.old.count < 0x800_0000) }
    ensures puts { Gains (susceptance_row ends.now.grid.plan.counts ends.now.grid.plan.wiring.now ends.now.grid.plan.readings.now i) sink.old sink.new }
    ensures most { sink.new.count ≤ sink.old.count + 256 }
{
    make_row(ends, i, acc, hit);
    put_marked(
        ends.grid.plan.counts.buses,
        hit,
        |j| cell(acc, hit, i, j),
        sink,
    );
}

// The susceptance list into three sheets, below a limit: counted always, stored below it.
pub fn put_susceptance(grid: &Grid<'_>, sink: &mut Sink<'_>)
    requires { sink.old.count ≡ 0 }
    ensures puts { Gains (susceptance_coo grid.now.plan.counts grid.now.plan.wiring.now grid.now.plan.readings.now) sink.old sink.new }
    ensures most { sink.new.count ≤ 0x1_0000 }
{
    let mut head = [0u32; 256];
    let mut next = [0u32; 1024];
    let mut acc = [0.0; 256];
    let mut hit = [0u32; 272];
    link_ends(grid.plan.wiring, grid.plan.counts, &mut head, &mut next);
    let ends = Ends {
        grid: *grid,
        head: &head,
        next: &next,
    };
    let n = grid.plan.counts.buses;
    for i in 0..n {
        put_row(&ends, i, &mut acc, &mut hit, sink);
    }
}
