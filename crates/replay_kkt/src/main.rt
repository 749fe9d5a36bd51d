// Replays recorded answers of the Rust original: each case on standard input is a network with its
// solution sheet and the triplets that the original gave for it. Prints how many cases there were,
// and how many of them the matrix call answers otherwise.
#![tactic(auto)]

ghost use Rattle.std.specs.Prelude.{◌+◌, ◌≤◌, ◌<◌, length, IfSome};

use capi_sens::matrix::capi_kkt_triplets;

// Read and printed by the kit's `io`: std's printing rests on three more C functions, and nothing new may be assumed.
// Standard input and output, as every process is given them.
const STDIN_FILENO: i32 = 0;

const STDOUT_FILENO: i32 = 1;

// Where a case ends, and whether it was answered as recorded.
#[derive(Clone, Copy)]
struct Replayed {
    end: usize,
    same: bool,
}

// `main` and `replay` read as those of replay_opf: no crate that both use prints, and a crate of these few lines is no
// plainer.
fn main() {
    let mut buffer = [0; 262144];
    let read = io::read_full(STDIN_FILENO, &mut buffer);
    replay(&buffer[..read]);
}

// The length at a place: at most 65535.
fn length_at(b: &[u8], at: usize) -> usize
    requires { at + 2 ≤ length b.now }
    ensures { result < 0x1_0000 }
{
    usize::from(u16::from_le_bytes([b[at], b[at + 1]]))
}

// Whether the first `count` bytes of a sheet are the recorded ones.
fn same(sheet: &[u8], count: usize, recorded: &[u8]) -> bool {
    sheet.get(..count) == Some(recorded)
}

// One case: the call on the lent slices, held against the recorded triplets.
// The slices stay single, as the C call takes them.
fn answered(
    wiring: &[u8],
    readings: &[u8],
    term_index: &[u8],
    term_coefficient: &[u8],
    solution: &[u8],
    count: usize,
    recorded_rows: &[u8],
    recorded_cols: &[u8],
    recorded_values: &[u8],
) -> bool
    requires { count < 0x1_0000 }
{
    let mut rows = [0u8; 1024];
    let mut cols = [0u8; 1024];
    let mut values = [0u8; 2048];
    let answer = capi_kkt_triplets(
        wiring,
        readings,
        term_index,
        term_coefficient,
        solution,
        &mut rows,
        &mut cols,
        &mut values,
    );
    answer == 256 * (count as u64)
        && same(&rows, 4 * count, recorded_rows)
        && same(&cols, 4 * count, recorded_cols)
        && same(&values, 8 * count, recorded_values)
}

// The case at the front of what is left, where a whole one is.
fn case_at(b: &[u8]) -> Option<Replayed>
    ensures { IfSome result (λ case. (0 < case.end) × (case.end ≤ length b.now)) }
{
    let (lengths, rest) = b.split_at_checked(24)?;
    let (wiring, rest) = rest.split_at_checked(length_at(lengths, 0))?;
    let (readings, rest) = rest.split_at_checked(length_at(lengths, 4))?;
    let (term_index, rest) = rest.split_at_checked(length_at(lengths, 8))?;
    let (term_coefficient, rest) = rest.split_at_checked(length_at(lengths, 12))?;
    let (solution, rest) = rest.split_at_checked(length_at(lengths, 16))?;
    let count = length_at(lengths, 20);
    let (rows, rest) = rest.split_at_checked(4 * count)?;
    let (cols, rest) = rest.split_at_checked(4 * count)?;
    let (values, rest) = rest.split_at_checked(8 * count)?;
    let same = answered(
        wiring,
        readings,
        term_index,
        term_coefficient,
        solution,
        count,
        rows,
        cols,
        values,
    );
    let end = b.len() - rest.len();
    Some(Replayed { end, same })
}

// No more cases than these are replayed.
const MOST_CASES: usize = 1000;

// Every case, of the first so many.
fn replay(b: &[u8]) {
    let mut at = 0;
    let mut cases = 0u64;
    let mut wrong = 0u64;
    for _ in 0..MOST_CASES {
        let Some(case) = case_at(&b[at..]) else {
            break;
        };
        at += case.end;
        cases += 1;
        wrong += u64::from(!case.same);
    }
    io::print_decimal(STDOUT_FILENO, cases);
    io::write_all(STDOUT_FILENO, b" cases, ");
    io::print_decimal(STDOUT_FILENO, wrong);
    io::write_all(STDOUT_FILENO, b" answered otherwise, ");
    io::print_decimal(STDOUT_FILENO, (b.len() - at) as u64);
    io::write_all(STDOUT_FILENO, b" bytes left\n");
}
