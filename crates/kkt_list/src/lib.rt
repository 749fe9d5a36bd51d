// The whole list, block by block in the Rust's order of emission.
#![tactic(auto)]

ghost use Rattle.std.specs.Prelude.{◌≡◌, ◌+◌, ◌*◌, ◌<◌, ◌≤◌, length};
ghost use Rattle.sequence.specs.Lists.{each};
ghost use Rattle.sequence.specs.Sheets.{room};
ghost use Rattle.sequence.specs.Sinks.{Gains};
ghost use Rattle.network.specs.Numbers.{Termed};
ghost use Rattle.kkt.specs.Slots.{site_of, block_slots, emission, emission_at};
ghost use Rattle.kkt.specs.Slots.Rule.{first_place};
ghost use Rattle.kkt.specs.Matrix.{kkt_matrix_list};
ghost use Rattle.kkt.specs.Walks.{emitted_at};
ghost use Rattle.kkt_cells.specs.Cells.{Kept};

use kkt::{Kkt, KktSite};
use kkt_buses::{KktLines, put_angles, put_balances};
use kkt_cells::{KktSums, keep_sums};
use kkt_generators::{put_dispatch, put_epigraphs, put_segment_duals};
use kkt_index::{Block, KktIdx};
use kkt_rows::put_rows;
use kkt_short::put_short;
use sequence::{Sink, room};
use solution::SolvedSite;
use susceptance::{Ends, link_ends};

// The blocks in the order in which they are put.
const EMISSION: &[Block] = &[
    Block::Va,
    Block::Pg,
    Block::Flow,
    Block::Psh,
    Block::Cost,
    Block::LamLb,
    Block::LamUb,
    Block::GammaLb,
    Block::GammaUb,
    Block::RhoLb,
    Block::RhoUb,
    Block::MuLb,
    Block::Segments,
    Block::MuUb,
    Block::NuBal,
    Block::NuFlow,
    Block::Eta,
    Block::Linear,
];

// What the blocks are put from: sums and chains made once, and the terms of the linear rows.
#[derive(Clone, Copy)]
struct Prepared<'a, 'b, 'c> {
    lines: KktLines<'a, 'b, 'c>,
    term_index: &'a [u32],
    term_coefficient: &'a [f64],
    ghost termed: { Termed lines.sums.kkt.grid.plan.counts lines.sums.kkt.grid.plan.wiring.now term_index.now term_coefficient.now },
}

// Every column of a block.
#[inline(always)]
fn put_block(site: &Prepared<'_, '_, '_>, b: Block, sink: &mut Sink<'_>)
    requires { sink.old.count < 0x200_0000 }
    ensures puts { Gains (emitted_at site.now.lines.sums.kkt (block_slots (site_of first_place site.now.lines.sums.kkt.grid.plan.counts site.now.lines.sums.kkt.grid.plan.wiring.now site.now.lines.sums.kkt.grid.plan.readings.now site.now.term_index.now site.now.term_coefficient.now) b)) sink.old sink.new }
    ensures most { sink.new.count ≤ sink.old.count + 0x18_0000 }
{
    let kkt = &site.lines.sums.kkt;
    match b {
        Block::Va => put_angles(&site.lines, sink),
        Block::Pg => put_dispatch(kkt, sink),
        Block::Cost => put_epigraphs(kkt, sink),
        Block::Segments => put_segment_duals(kkt, sink),
        Block::NuBal => put_balances(&site.lines.sums, sink),
        Block::Linear => {
            let rows = KktSite {
                kkt: *kkt,
                term_index: site.term_index,
                term_coefficient: site.term_coefficient,
            };
            put_rows(&rows, sink)
        }
        Block::Flow
        | Block::Psh
        | Block::LamLb
        | Block::LamUb
        | Block::GammaLb
        | Block::GammaUb
        | Block::RhoLb
        | Block::RhoUb
        | Block::MuLb
        | Block::MuUb
        | Block::NuFlow
        | Block::Eta => put_short(kkt, b, sink),
    }
}

// Every block. What they are put from is copied and their functions are inlined: else, after each triplet that is
// written, it would be read anew through the reference, since the sheets might overlap it for all that the machine knows.
fn put_blocks(site: &Prepared<'_, '_, '_>, sink: &mut Sink<'_>)
    requires { sink.old.count ≡ 0 }
    ensures puts { Gains (emitted_at site.now.lines.sums.kkt (each (length emission) (λ k. block_slots (site_of first_place site.now.lines.sums.kkt.grid.plan.counts site.now.lines.sums.kkt.grid.plan.wiring.now site.now.lines.sums.kkt.grid.plan.readings.now site.now.term_index.now site.now.term_coefficient.now) (emission_at k)))) sink.old sink.new }
    ensures most { sink.new.count ≤ 0x1b0_0000 }
{
    let site = *site;
    for b in EMISSION {
        put_block(&site, *b, sink);
    }
}

// Every bus's sums that are not zero, in lent arrays.
// The slices stay single: a sink is made of three here, with its limit, and `acc` and `hit` are as in `make_row`.
fn keep_in(
    ends: &Ends<'_>,
    acc: &mut [f64],
    hit: &mut [u32],
    starts: &mut [u32],
    buses: &mut [u32],
    others: &mut [u32],
    sums: &mut [f64],
)
    requires row_room { (ends.now.grid.plan.counts.buses ≤ length acc.old) × (16 + ends.now.grid.plan.counts.buses ≤ length hit.old) }
    requires starts_in_bounds { ends.now.grid.plan.counts.buses < length starts.old }
    requires cells_in_bounds { ends.now.grid.plan.counts.buses + 2 * ends.now.grid.plan.counts.branches ≤ room buses.old others.old sums.old }
    ensures { Kept ends.now.grid.plan.counts ends.now.grid.plan.wiring.now ends.now.grid.plan.readings.now starts.new buses.new sums.new }
{
    let limit = room(buses, others, sums);
    let mut cells = Sink {
        rows: buses,
        cols: others,
        values: sums,
        limit,
        count: 0,
    };
    keep_sums(ends, acc, hit, starts, &mut cells);
}

// The list, with arrays of its own for the chains of the branches' ends and the susceptance sums: of a small network's
// sizes or of the greatest, since a network of few buses and branches need not wait until the greatest are cleared.
fn put_with<
    const BUSES: usize,
    const ENDS: usize,
    const MARKS: usize,
    const STARTS: usize,
    const CELLS: usize,
>(solved: &SolvedSite<'_>, sink: &mut Sink<'_>)
    requires buses_bound { (solved.now.site.grid.plan.counts.buses ≤ BUSES) × (16 + solved.now.site.grid.plan.counts.buses ≤ MARKS) × (solved.now.site.grid.plan.counts.buses < STARTS) }
    requires branches_bound { (2 * solved.now.site.grid.plan.counts.branches ≤ ENDS) × (solved.now.site.grid.plan.counts.buses + 2 * solved.now.site.grid.plan.counts.branches ≤ CELLS) }
    requires few { (BUSES ≤ 256) × (ENDS ≤ 1024) × (MARKS ≤ 272) × (STARTS ≤ 257) × (CELLS ≤ 1280) }
    requires empty { sink.old.count ≡ 0 }
    ensures puts { Gains (kkt_matrix_list first_place solved.now.site.grid.plan.counts solved.now.site.grid.plan.wiring.now solved.now.site.grid.plan.readings.now solved.now.site.term_index.now solved.now.site.term_coefficient.now solved.now.sheet.now) sink.old sink.new }
    ensures most { sink.new.count ≤ 0x1b0_0000 }
{
    let site = solved.site;
    let mut head = [0u32; BUSES];
    let mut next = [0u32; ENDS];
    let mut acc = [0.0; BUSES];
    let mut hit = [0u32; MARKS];
    let mut starts = [0u32; STARTS];
    let mut buses = [0u32; CELLS];
    let mut others = [0u32; CELLS];
    let mut sums = [0.0; CELLS];
    link_ends(
        site.grid.plan.wiring,
        site.grid.plan.counts,
        &mut head,
        &mut next,
    );
    let ends = Ends {
        grid: site.grid,
        head: &head,
        next: &next,
    };
    keep_in(
        &ends,
        &mut acc,
        &mut hit,
        &mut starts,
        &mut buses,
        &mut others,
        &mut sums,
    );
    let grid = site.grid;
    let index = KktIdx::of(&grid.plan);
    let sheet = solved.sheet;
    let kkt = Kkt { grid, sheet, index };
    let sums = KktSums {
        kkt,
        starts: &starts,
        buses: &buses,
        values: &sums,
    };
    let lines = KktLines {
        sums,
        head: &head,
        next: &next,
    };
    let prepared = Prepared {
        lines,
        term_index: site.term_index,
        term_coefficient: site.term_coefficient,
    };
    put_blocks(&prepared, sink);
}

// The list into three sheets, below a limit: counted always, stored below it.
pub fn put_kkt(solved: &SolvedSite<'_>, sink: &mut Sink<'_>)
    requires empty { sink.old.count ≡ 0 }
    ensures puts { Gains (kkt_matrix_list first_place solved.now.site.grid.plan.counts solved.now.site.grid.plan.wiring.now solved.now.site.grid.plan.readings.now solved.now.site.term_index.now solved.now.site.term_coefficient.now solved.now.sheet.now) sink.old sink.new }
    ensures most { sink.new.count ≤ 0x1b0_0000 }
{
    let c = solved.site.grid.plan.counts;
    if c.buses <= 32 && c.branches <= 48 {
        return put_with::<32, 96, 48, 33, 128>(solved, sink);
    }
    put_with::<256, 1024, 272, 257, 1280>(solved, sink);
}
