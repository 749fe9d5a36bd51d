// Entries of a bus by its chains: its branches, its generators and its first place among the references.
#![tactic(auto)]

ghost use Rattle.std.specs.Prelude.{◌≡◌, ℕ, ◌+◌, ◌*◌, ◌/◌, ◌<◌, ◌≤◌, [], ◌∷◌, ◌++◌, length};
ghost use Rattle.network.specs.declared.Part.TheVariants.{GenBus, References};
ghost use Rattle.sequence.specs.Lists.{each};
ghost use Rattle.sequence.specs.Links.{Links};
ghost use Rattle.sequence.specs.Sinks.{Gains};
ghost use Rattle.network.specs.Layout.{WiringLaid, wire, part_size};
ghost use Rattle.susceptance.specs.Incidence.{Chains};
ghost use Rattle.kkt_index.specs.declared.Block.TheVariants.{NuBal, Psh};
ghost use Rattle.snapping.specs.Expr.{less_unit};
ghost use Rattle.kkt.specs.Slots.{slot, end_slots, incident, reference_slot};
ghost use Rattle.kkt.specs.Walks.{generators_at, triple, sign_of, sign_at, item_at, emitted_at};
ghost use Rattle.kkt.specs.Slots.Rule.{first_place};

use kkt::{Kkt, entry, put_all};
use kkt_index::Block;
use network::layout::{part_size, wide, word};
use network::{Counts, Field, Part};
use sequence::linking::link;
use sequence::{Sink, Triplet};
use snapping::{gamma_lb_of, gamma_ub_of};
use solution::OperatingPoint;
use susceptance::{branch_of, is_from};

// The chains of a part whose words are buses, by bus.
// It asks for the wiring alone (a plan asks for more, a `Wiring` would be made for it), and writes `head` and `next`.
pub fn link_part(wiring: &[u32], c: Counts, p: Part, head: &mut [u32], next: &mut [u32])
    requires wiring_laid { WiringLaid c wiring.now }
    requires by_index { (i : ℕ) → i < part_size c p → wire c wiring.now p i < c.buses }
    requires buses_in_bounds { (c.buses ≤ length head.old) × (part_size c p ≤ length next.old) × (part_size c p ≤ 0x1000) }
    ensures { Links (wire c wiring.now p) c.buses (part_size c p) 0 head.new next.new }
{
    link(
        c.buses,
        part_size(c, p),
        |i| word(wiring, c, p, i),
        head,
        next,
    );
}

// + at a from end, - at a to end.
fn sign_at(e: usize) -> f64
    ensures { result ≡ sign_of e }
{
    if is_from(e) { 1.0 } else { -1.0 }
}

// The entries of the branch of end `end`, which is at bus j.
fn end_items(kkt: &Kkt<'_>, j: usize, end: usize) -> [Option<Triplet>; 3]
    requires { (j < kkt.now.grid.plan.counts.buses) × (end < 2 * kkt.now.grid.plan.counts.branches) }
    ensures { result ≡ triple (item_at kkt.now) (end_slots kkt.now.grid.plan.counts kkt.now.grid.plan.wiring.now j (sign_at end) (end / 2)) }
{
    let e = branch_of(end);
    let a = sign_at(end);
    let sw = kkt.grid.reading(Field::Sw, e);
    let point = OperatingPoint {
        grid: kkt.grid,
        pieces: kkt.index.pieces,
        sheet: kkt.sheet,
    };
    let lower = gamma_lb_of(&point, e);
    let upper = gamma_ub_of(&point, e);
    let b = kkt.grid.reading(Field::Susceptance, e);
    [
        entry(kkt.index, Block::GammaLb, e, Block::Va, j, lower * sw * a),
        entry(kkt.index, Block::GammaUb, e, Block::Va, j, -upper * sw * a),
        entry(kkt.index, Block::NuFlow, e, Block::Va, j, b * sw * a),
    ]
}

// The branches at bus j, along its chain.
// Chains stay two slices here and below: `KktLines` asks for the sums too, and of each other pair two functions read.
pub fn put_ends(kkt: &Kkt<'_>, head: &[u32], next: &[u32], j: usize, sink: &mut Sink<'_>)
    requires chains { Chains kkt.now.grid.plan.counts kkt.now.grid.plan.wiring.now head.now next.now }
    requires j_lt_buses { (j < kkt.now.grid.plan.counts.buses) × (sink.old.count < 0x800_0000) }
    ensures puts { Gains (emitted_at kkt.now (each kkt.now.grid.plan.counts.branches (incident kkt.now.grid.plan.counts kkt.now.grid.plan.wiring.now j))) sink.old sink.new }
    ensures most { sink.new.count ≤ sink.old.count + 3072 }
{
    let to = 2 * kkt.grid.plan.counts.branches;
    // Along the links, which no range counts.
    let mut end = wide(head[j]);
    while end < to {
        put_all(sink, end_items(kkt, j, end));
        end = wide(next[end]);
    }
}

// Bus j's first place among the references, where it has one: its entry in the bus's own column.
pub fn put_reference(kkt: &Kkt<'_>, first: &[u32], later: &[u32], j: usize, sink: &mut Sink<'_>)
    requires links { Links (wire kkt.now.grid.plan.counts kkt.now.grid.plan.wiring.now References) kkt.now.grid.plan.counts.buses kkt.now.grid.plan.counts.references 0 first.now later.now }
    requires buses_in_bounds { (kkt.now.grid.plan.counts.buses ≤ length first.now) × (j < kkt.now.grid.plan.counts.buses) × (sink.old.count < 0x1000_0000) }
    ensures puts { Gains (emitted_at kkt.now (each kkt.now.grid.plan.counts.references (reference_slot first_place kkt.now.grid.plan.counts kkt.now.grid.plan.wiring.now j))) sink.old sink.new }
    ensures most { sink.new.count ≤ sink.old.count + 1 }
{
    let place = wide(first[j]);
    if place >= kkt.grid.plan.counts.references {
        return;
    }
    sink.put(entry(kkt.index, Block::Eta, place, Block::Va, j, 1.0));
}

// The generators at bus i, along its chain, each with its entry in the bus's nu_bal column.
fn put_bus_generators(kkt: &Kkt<'_>, head: &[u32], next: &[u32], i: usize, sink: &mut Sink<'_>)
    requires links { Links (wire kkt.now.grid.plan.counts kkt.now.grid.plan.wiring.now GenBus) kkt.now.grid.plan.counts.buses kkt.now.grid.plan.counts.generators 0 head.now next.now }
    requires buses_in_bounds { (kkt.now.grid.plan.counts.buses ≤ length head.now) × (kkt.now.grid.plan.counts.generators ≤ length next.now) × (i < kkt.now.grid.plan.counts.buses) × (sink.old.count < 0x1000_0000) }
    ensures puts { Gains (emitted_at kkt.now (each kkt.now.grid.plan.counts.generators (generators_at kkt.now.grid.plan.counts kkt.now.grid.plan.wiring.now i))) sink.old sink.new }
    ensures most { sink.new.count ≤ sink.old.count + 256 }
{
    let to = kkt.grid.plan.counts.generators;
    // Along the links, which no range counts.
    let mut j = wide(head[i]);
    while j < to {
        sink.put(entry(kkt.index, Block::Pg, j, Block::NuBal, i, -1.0));
        j = wide(next[j]);
    }
}

// The rest of bus i's nu_bal column: its generators, and its shed.
pub fn put_injections(kkt: &Kkt<'_>, head: &[u32], next: &[u32], i: usize, sink: &mut Sink<'_>)
    requires links { Links (wire kkt.now.grid.plan.counts kkt.now.grid.plan.wiring.now GenBus) kkt.now.grid.plan.counts.buses kkt.now.grid.plan.counts.generators 0 head.now next.now }
    requires buses_in_bounds { (kkt.now.grid.plan.counts.buses ≤ length head.now) × (kkt.now.grid.plan.counts.generators ≤ length next.now) × (i < kkt.now.grid.plan.counts.buses) × (sink.old.count < 0x1000_0000) }
    ensures puts { Gains (emitted_at kkt.now (each kkt.now.grid.plan.counts.generators (generators_at kkt.now.grid.plan.counts kkt.now.grid.plan.wiring.now i) ++ slot (Psh, i) (NuBal, i) less_unit ∷ [])) sink.old sink.new }
    ensures most { sink.new.count ≤ sink.old.count + 257 }
{
    let shed = entry(kkt.index, Block::Psh, i, Block::NuBal, i, -1.0);
    put_bus_generators(kkt, head, next, i, sink);
    sink.put(shed);
}
