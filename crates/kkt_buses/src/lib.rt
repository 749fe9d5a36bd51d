// The columns of the buses: of their angles, and of their balances.
#![tactic(auto)]

ghost use Rattle.network.specs.declared.Part.TheVariants.{References};
ghost use Rattle.std.specs.Prelude.{true, ◌+◌, ◌<◌, ◌≤◌, ◌++◌, length};
ghost use Rattle.sequence.specs.Lists.{each};
ghost use Rattle.sequence.specs.Links.{Links};
ghost use Rattle.sequence.specs.Sinks.{Gains};
ghost use Rattle.network.specs.Layout.{wire};
ghost use Rattle.susceptance.specs.Incidence.{Chains};
ghost use Rattle.kkt.specs.Slots.{nu_bal_column, reference_slot, va_column};
ghost use Rattle.kkt.specs.Walks.{balance_slots, emitted_at};
ghost use Rattle.kkt.specs.Slots.Rule.{first_place};

use kkt_cells::{KktSums, put_kept};
use kkt_chains::{link_part, put_ends, put_injections, put_reference};
use network::Part;
use sequence::Sink;

// The same with the chains of the branches' ends.
#[derive(Clone, Copy)]
pub struct KktLines<'a, 'b, 'c> {
    pub sums: KktSums<'a, 'b>,
    pub head: &'c [u32],
    pub next: &'c [u32],
    pub ghost chains: { Chains sums.kkt.grid.plan.counts sums.kkt.grid.plan.wiring.now head.now next.now },
}

// The rest of bus j's column: the susceptance sums, and its reference.
fn put_angle_rest(
    sums: &KktSums<'_, '_>,
    first: &[u32],
    later: &[u32],
    j: usize,
    sink: &mut Sink<'_>,
)
    requires links { Links (wire sums.now.kkt.grid.plan.counts sums.now.kkt.grid.plan.wiring.now References) sums.now.kkt.grid.plan.counts.buses sums.now.kkt.grid.plan.counts.references 0 first.now later.now }
    requires buses_in_bounds { (sums.now.kkt.grid.plan.counts.buses ≤ length first.now) × (j < sums.now.kkt.grid.plan.counts.buses) × (sink.old.count < 0x800_0000) }
    ensures puts { Gains (emitted_at sums.now.kkt (balance_slots true sums.now.kkt.grid.plan.counts sums.now.kkt.grid.plan.wiring.now j ++ each sums.now.kkt.grid.plan.counts.references (reference_slot first_place sums.now.kkt.grid.plan.counts sums.now.kkt.grid.plan.wiring.now j))) sink.old sink.new }
    ensures most { sink.new.count ≤ sink.old.count + 1281 }
{
    put_kept(sums, true, j, sink);
    put_reference(&sums.kkt, first, later, j, sink);
}

// Every va column: gated angle stationarity, -B (power balance), -W*A (flow definition), and the reference indicator.
pub fn put_angles(lines: &KktLines<'_, '_, '_>, sink: &mut Sink<'_>)
    requires { sink.old.count < 0x400_0000 }
    ensures puts { Gains (emitted_at lines.now.sums.kkt (each lines.now.sums.kkt.grid.plan.counts.buses (va_column first_place lines.now.sums.kkt.grid.plan.counts lines.now.sums.kkt.grid.plan.wiring.now))) sink.old sink.new }
    ensures most { sink.new.count ≤ sink.old.count + 0x18_0000 }
{
    let kkt = &lines.sums.kkt;
    let mut first = [0u32; 256];
    let mut later = [0u32; 16];
    link_part(
        kkt.grid.plan.wiring,
        kkt.grid.plan.counts,
        Part::References,
        &mut first,
        &mut later,
    );
    let to = kkt.grid.plan.counts.buses;
    for j in 0..to {
        put_ends(kkt, lines.head, lines.next, j, sink);
        put_angle_rest(&lines.sums, &first, &later, j, sink);
    }
}

// Every nu_bal column: B' (theta), -G_inc' (pg), -I (psh).
pub fn put_balances(sums: &KktSums<'_, '_>, sink: &mut Sink<'_>)
    requires { sink.old.count < 0x400_0000 }
    ensures puts { Gains (emitted_at sums.now.kkt (each sums.now.kkt.grid.plan.counts.buses (nu_bal_column sums.now.kkt.grid.plan.counts sums.now.kkt.grid.plan.wiring.now))) sink.old sink.new }
    ensures most { sink.new.count ≤ sink.old.count + 0x18_0000 }
{
    let kkt = &sums.kkt;
    let mut first = [0u32; 256];
    let mut later = [0u32; 256];
    link_part(
        kkt.grid.plan.wiring,
        kkt.grid.plan.counts,
        Part::GenBus,
        &mut first,
        &mut later,
    );
    let to = kkt.grid.plan.counts.buses;
    for i in 0..to {
        put_kept(sums, false, i, sink);
        put_injections(kkt, &first, &later, i, sink);
    }
}
