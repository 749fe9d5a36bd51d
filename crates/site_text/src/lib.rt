// What the program sitechange prints.
#![tactic(auto)]

ghost use Rattle.std.specs.Prelude.{◌≡◌, [], true, ◌+◌, ◌*◌, ◌<◌, ◌≤◌, length, take};
ghost use Rattle.io.specs.Counts.{IsPrefixLen as Counts·of};
ghost use Rattle.sequence.specs.Answers.{number_of, count_of};
ghost use Rattle.words.specs.Words.{joined};
ghost use Rattle.network.specs.Layout.{counts_of, size};
ghost use Rattle.solution.specs.NetworkB.{wiring_b, readings_b, sheet_b};
ghost use Rattle.kkt_index.specs.Index.{start_in};
ghost use Rattle.kkt.specs.Slots.Rule.{first_place};
ghost use Rattle.change_table.specs.Table.{is_kind, field_of, cells_of, cells_at, named_cells};
ghost use Rattle.job_book.specs.Book.{words, step};
ghost use Rattle.job_book.specs.Run.{triplets};
ghost use Rattle.site_text.specs.Answers.{Answered};
ghost use Rattle.site_text.specs.Text.{triplet_line, triplets_in, given_b, words_b, answered, printed};
ghost use Rattle.site_text.specs.Writing.{Adds};

mod buffer;

use crate::buffer::Buffer;
use change_cells::Places;
use change_table::field_of;
use job_book::Change;
use kkt_index::KktIdx;
use network::layout::counts;
use network::{Field, Plan, Wiring};
use sequence::{Answer, Refusal, Triplet};
use words::word32;

// Network B: its wiring, its readings and its solution sheet.
fn wiring_b() -> [u32; 17]
    ensures { result ≡ wiring_b }
{
    [2u32, 1, 1, 1, 0, 0, 0, 0, 1, 0, 1, 0, 0, 0, 1, 1, 1]
}

fn readings_b() -> [f64; 21]
    ensures { result ≡ readings_b }
{
    [
        100.0, -4.0, 1.0, 0.0, 0.0, 4.0, -0.5, 0.5, 0.0, 2.0, 1.0, 0.0, 0.0, 3.0, 3.0, 0.0, 1.0,
        0.0, 0.0, 0.0, 0.0,
    ]
}

fn solution_b() -> [f64; 19]
    ensures { result ≡ sheet_b }
{
    [
        0.0, -0.25, 1.0, 1.0, 0.0, 0.0, 2.0, 2.0, 0.0, 0.0, 0.0, 0.0, 0.0, 0.0, 1.0, 1.0, 0.0, 0.0,
        1.0,
    ]
}

// The change of network B.
// The sheets stay single, as `change` takes them.
fn change_b(rows: &mut [u32], cols: &mut [u32], values: &mut [f64], asked: Change) -> Answer
    ensures answered { Answered (number_of result) (count_of result) rows.new cols.new values.new (step given_b first_place (λ W h. []) (words readings_b rows.old cols.old values.old) asked) }
    ensures few { count_of result < 0x1_0000_0000 }
{
    change::change(
        &wiring_b(),
        &mut readings_b(),
        &[],
        &[],
        &solution_b(),
        rows,
        cols,
        values,
        asked,
    )
}

// The lines of the triplets that are in a cell that the change names.
fn put_named(
    text: &mut Buffer<'_>,
    places: &Places<'_>,
    f: Field,
    i: usize,
    rows: &[u32],
    cols: &[u32],
    values: &[f64],
    count: usize,
)
    requires i_bound { i < size places.now.wiring.counts f }
    requires count_in_bounds { (count ≤ length rows.now) × (count ≤ length cols.now) × (count ≤ length values.now) }
    requires count_in_bounds_2 { text.old.len + 59 * count ≤ length text.old.bytes.now }
    ensures wrote { Adds (joined triplet_line (triplets_in (cells_at (start_in places.now.index) (cells_of places.now.wiring.counts places.now.wiring.words.now f i)) (triplets (take count rows.now) (take count cols.now) (take count values.now)))) text.old text.new }
    ensures most { text.new.len ≤ text.old.len + 59 * count }
{
    for t in 0..count {
        let triplet = Triplet {
            row: rows[t],
            col: cols[t],
            value: values[t],
        };
        if places.is_named(f, i, triplet.row, triplet.col) {
            text.put_triplet_line(triplet);
        }
    }
}

// The same for a change of network B, whose places no change moves.
fn put_named_b(
    text: &mut Buffer<'_>,
    asked: Change,
    rows: &[u32],
    cols: &[u32],
    values: &[f64],
    count: usize,
)
    requires kind { is_kind asked.kind ≡ true }
    requires index { asked.index < size (counts_of wiring_b) (field_of asked.kind) }
    requires count_in_bounds { (count ≤ length rows.now) × (count ≤ length cols.now) × (count ≤ length values.now) }
    requires count_in_bounds_2 { text.old.len + 59 * count ≤ length text.old.bytes.now }
    ensures wrote { Adds (joined triplet_line (triplets_in (named_cells (counts_of wiring_b) wiring_b readings_b asked.kind asked.index) (triplets (take count rows.now) (take count cols.now) (take count values.now)))) text.old text.new }
    ensures most { text.new.len ≤ text.old.len + 59 * count }
{
    let wiring = wiring_b();
    let readings = readings_b();
    let c = counts(&wiring);
    let plan = Plan {
        counts: c,
        wiring: &wiring,
        readings: &readings,
    };
    let places = Places {
        wiring: Wiring {
            counts: c,
            words: &wiring,
        },
        index: KktIdx::of(&plan),
    };
    let f = field_of(asked.kind);
    put_named(text, &places, f, asked.index, rows, cols, values, count);
}

// The change's answer and, where it is accepted, its triplets.
fn put_change(text: &mut Buffer<'_>, asked: Change)
    requires { text.old.len + 4096 ≤ length text.old.bytes.now }
    ensures wrote { Adds (answered (step given_b first_place (λ W h. []) words_b asked) asked) text.old text.new }
    ensures most { text.new.len ≤ text.old.len + 4096 }
{
    let mut rows = [0u32; 57];
    let mut cols = [0u32; 57];
    let mut values = [0.0; 57];
    let answer = change_b(&mut rows, &mut cols, &mut values, asked);
    text.put_first_line(answer);
    if let Ok(count) = answer {
        put_named_b(text, asked, &rows, &cols, &values, count);
    }
}

// The text that sitechange prints for the bytes it read.
pub fn site_text(input: &[u8], out: &mut [u8; 4096]) -> usize
    ensures counts_of { Counts·of result out.new }
    ensures out_after { take result out.new ≡ printed input.now }
{
    let mut text = Buffer { bytes: out, len: 0 };
    if input.len() != 12 {
        text.put_first_line(Err(Refusal::Size));
        return text.len;
    }
    let head = word32(input, 0);
    let low = word32(input, 4);
    let high = word32(input, 8);
    put_change(&mut text, Change::of(head, low, high));
    text.len
}
