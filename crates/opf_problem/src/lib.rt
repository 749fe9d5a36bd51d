// problem/dc.rs, `assemble_opf` as a public call: the program in standard form into lent sheets.
#![tactic(auto)]

ghost use Rattle.std.specs.Prelude.{◌≡◌, ◌≤◌, length, ltb, List};
ghost use Rattle.sequence.specs.declared.Triplet.{Triplet};
ghost use Rattle.sequence.specs.Laying.{PutsIntoEmpty, PutIs};
ghost use Rattle.sequence.specs.Lists.{front};
ghost use Rattle.sequence.specs.Sheets.{room};
ghost use Rattle.sequence.specs.Sinks.{Gains};
ghost use Rattle.network.specs.Layout.{Few};
ghost use Rattle.network.specs.Sites.{network_in};
ghost use Rattle.opf_problem.specs.Calls.{program, assembled, assembled_by, assembles, assemble_call};
ghost use Rattle.opf_problem.specs.Walks.{most_a, parts_in, short_at};

pub mod draft;

pub use draft::Draft;
use network::{Counts, Lent};
use opf_layout::OpfLayout;
use opf_matrix::{put_a, put_p};
use opf_sides::{cone_count, put_b, put_cones, put_q};
use sequence::laying::{counted, written};
use sequence::{Refusal, Sink, room};

// How many triplets of A and of P were written.
#[derive(Clone, Copy, Debug, PartialEq, Eq)]
pub struct Written {
    pub a: usize,
    pub p: usize,
}

// How many doubles or triplets each lent sheet holds.
#[derive(Clone, Copy)]
pub struct Rooms {
    pub p: usize,
    pub a: usize,
    pub q: usize,
    pub b: usize,
    pub cones: usize,
}

impl Draft<'_> {
    // P's triplets, into an empty sink.
    #[inline(always)]
    fn put_p(&self, sink: &mut Sink<'_>)
        requires { sink.old.count ≡ 0 }
        ensures { Gains (parts_in self.now).p sink.old sink.new }
    {
        let plan = self.site.grid.plan;
        put_p(plan.readings, plan.counts, self.layout, sink);
    }

    // A's triplets, into an empty sink.
    #[inline(always)]
    fn put_a(&self, sink: &mut Sink<'_>)
        requires { sink.old.count ≡ 0 }
        ensures { Gains (parts_in self.now).a sink.old sink.new }
    {
        put_a(&self.site, self.layout, sink);
    }
}

// The most triplets that A can have.
fn most_a(c: Counts) -> usize
    requires { Few c }
    ensures { result ≡ most_a c }
{
    3 * c.buses + 3 * c.generators + 13 * c.branches + c.references + 2 * c.segments + 2 * c.terms
}

// Whether triplets have no room; they are counted only where the most that there can be have none.
fn is_over<P: Fn(&mut Sink<'_>)>(most: usize, room: usize, put: &P) -> bool
    requires { PutsIntoEmpty (P.pre put.now) }
    ensures { (ts : List Triplet) → PutIs (P.post put.now) ts → length ts ≤ most → result ≡ ltb room (length ts) }
{
    if most <= room {
        return false;
    }
    room < counted(put)
}

// Whether a sheet is shorter than its result.
fn is_short(draft: &Draft<'_>, rooms: Rooms) -> bool
    ensures { result ≡ short_at draft.now rooms }
{
    if rooms.q < draft.layout.nvar {
        return true;
    }
    if rooms.b < draft.layout.ncon {
        return true;
    }
    if rooms.cones < cone_count(draft.layout) {
        return true;
    }
    let c = draft.site.grid.plan.counts;
    if is_over(c.generators, rooms.p, &|sink| draft.put_p(sink)) {
        return true;
    }
    is_over(most_a(c), rooms.a, &|sink| draft.put_a(sink))
}

// q, b and the cones' sizes, which fit.
fn lay_sides(draft: &Draft<'_>, q: &mut [f64], b: &mut [f64], sizes: &mut [u32])
    requires { (length (parts_in draft.now).q ≤ length q.old) × (length (parts_in draft.now).b ≤ length b.old) × (length (parts_in draft.now).cones ≤ length sizes.old) }
    ensures q_after { q.new ≡ front (parts_in draft.now).q q.old }
    ensures b_after { b.new ≡ front (parts_in draft.now).b b.old }
    ensures sizes_after { sizes.new ≡ front (parts_in draft.now).cones sizes.old }
{
    put_q(&draft.site.grid.plan, q);
    put_b(&draft.site.grid, b);
    put_cones(draft.layout, sizes);
}

// Every part, which fit.
// The sheets stay single: a sink is made of each three where it is used.
fn lay_program(
    draft: &Draft<'_>,
    p_rows: &mut [u32],
    p_cols: &mut [u32],
    p_values: &mut [f64],
    a_rows: &mut [u32],
    a_cols: &mut [u32],
    a_values: &mut [f64],
    q: &mut [f64],
    b: &mut [f64],
    sizes: &mut [u32],
) -> Written
    requires readings_len_bound { (length (parts_in draft.now).p ≤ room p_rows.old p_cols.old p_values.old) × (length (parts_in draft.now).a ≤ room a_rows.old a_cols.old a_values.old) }
    requires readings_in_bounds { (length (parts_in draft.now).q ≤ length q.old) × (length (parts_in draft.now).b ≤ length b.old) × (length (parts_in draft.now).cones ≤ length sizes.old) }
    ensures { assembled 0 result.a result.p (program p_rows.new p_cols.new p_values.new a_rows.new a_cols.new a_values.new q.new b.new sizes.new) ≡ assembles 0 (parts_in draft.now) (program p_rows.old p_cols.old p_values.old a_rows.old a_cols.old a_values.old q.old b.old sizes.old) }
{
    let p_room = room(p_rows, p_cols, p_values);
    let p = written(p_rows, p_cols, p_values, p_room, &|sink| draft.put_p(sink));
    let a_room = room(a_rows, a_cols, a_values);
    let a = written(a_rows, a_cols, a_values, a_room, &|sink| draft.put_a(sink));
    lay_sides(draft, q, b, sizes);
    Written { a, p }
}

// P's and A's triplets, q, b and the cones' sizes of a network; nothing is written where one does not fit.
// The sheets stay single, as C lends them.
pub fn assemble_opf(
    lent: Lent<'_>,
    p_rows: &mut [u32],
    p_cols: &mut [u32],
    p_values: &mut [f64],
    a_rows: &mut [u32],
    a_cols: &mut [u32],
    a_values: &mut [f64],
    q: &mut [f64],
    b: &mut [f64],
    sizes: &mut [u32],
) -> Result<Written, Refusal>
    ensures { assembled_by result (program p_rows.new p_cols.new p_values.new a_rows.new a_cols.new a_values.new q.new b.new sizes.new) ≡ assemble_call (network_in lent.entry) (program p_rows.old p_cols.old p_values.old a_rows.old a_cols.old a_values.old q.old b.old sizes.old) }
{
    let site = lent.accept()?;
    let layout = OpfLayout::of(&site.grid.plan);
    let rooms = Rooms {
        p: room(p_rows, p_cols, p_values),
        a: room(a_rows, a_cols, a_values),
        q: q.len(),
        b: b.len(),
        cones: sizes.len(),
    };
    let draft = Draft { site, layout };
    if is_short(&draft, rooms) {
        return Err(Refusal::Short);
    }
    Ok(lay_program(
        &draft, p_rows, p_cols, p_values, a_rows, a_cols, a_values, q, b, sizes,
    ))
}
