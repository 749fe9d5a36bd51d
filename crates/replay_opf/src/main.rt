// Replays recorded answers of the Rust original: each case on standard input is a network with a solver's
// vectors, the program that the original assembled for it, and the solution sheet and marginal values that
// it read from the vectors. Prints how many cases there were, and how many are answered otherwise.
#![tactic(auto)]

ghost use Rattle.std.specs.Prelude.{◌+◌, ◌≤◌, ◌<◌, ◌≡◌, length, IfSome};

use capi_problem::program::capi_assemble_opf;
use capi_problem::sheets::{capi_nodal_marginal_values, capi_read_dc_solution};
use words::word64;

// Standard input and output, as every process is given them.
const STDIN_FILENO: i32 = 0;

const STDOUT_FILENO: i32 = 1;

// Where a case ends, and whether it was answered as recorded.
#[derive(Clone, Copy)]
struct Replayed {
    end: usize,
    same: bool,
}

// `main` and `replay` read as those of replay_kkt: no crate that both use prints, and a crate of these few lines is no
// plainer. They read and print by the kit's `io`, since std's printing rests on three more C functions.
fn main() {
    let mut buffer = [0; 262144];
    let read = io::read_full(STDIN_FILENO, &mut buffer);
    replay(&buffer[..read]);
}

// The number at a place, of which the low half is looked at. It stands in replay_kkt too: it is one call of std, and
// no other crate reads two bytes, so a function of `words` would be no plainer.
fn number_at(b: &[u8], at: usize) -> usize
    requires { at + 2 ≤ length b.now }
    ensures { result < 0x1_0000 }
{
    usize::from(u16::from_le_bytes([b[at], b[at + 1]]))
}

// A minus zero among the doubles becomes a plus zero: the sign of a zero is set aside.
fn plain_zeros(doubles: &mut [u8])
    ensures { length doubles.new ≡ length doubles.old }
{
    for double in doubles.chunks_exact_mut(8) {
        if word64(double, 0) % 0x8000_0000_0000_0000 == 0 {
            double[7] = 0;
        }
    }
}

// What is left of the recorded answers after so many bytes, where a sheet begins with these.
fn words<'a>(recorded: &'a [u8], sheet: &[u8], count: usize) -> Option<&'a [u8]> {
    recorded.strip_prefix(sheet.get(..count)?)
}

// The same for bytes of doubles, the signs of zeros set aside.
fn doubles<'a>(recorded: &'a [u8], sheet: &mut [u8], count: usize) -> Option<&'a [u8]> {
    let end = count.min(sheet.len());
    plain_zeros(&mut sheet[..end]);
    words(recorded, sheet, count)
}

// A list's rows, columns and values.
fn list<'a>(
    recorded: &'a [u8],
    rows: &[u8],
    cols: &[u8],
    values: &mut [u8],
    count: usize,
) -> Option<&'a [u8]>
    requires { count < 0x1_0000 }
{
    let rest = words(recorded, rows, 4 * count)?;
    let rest = words(rest, cols, 4 * count)?;
    doubles(rest, values, 8 * count)
}

// The program: the call on the lent slices, held against the recorded answers.
// Here, in `read_back` and in `answered` the slices stay single, as the C calls take them.
fn assembled<'a>(
    wiring: &[u8],
    readings: &[u8],
    term_index: &[u8],
    term_coefficient: &[u8],
    columns: usize,
    rows: usize,
    recorded: &'a [u8],
) -> Option<&'a [u8]> {
    let mut p_rows = [0u8; 1024];
    let mut p_cols = [0u8; 1024];
    let mut p_values = [0u8; 2048];
    let mut a_rows = [0u8; 4096];
    let mut a_cols = [0u8; 4096];
    let mut a_values = [0u8; 8192];
    let mut q = [0u8; 4096];
    let mut b = [0u8; 4096];
    let mut cones = [0u8; 16];
    let answer = capi_assemble_opf(
        wiring,
        readings,
        term_index,
        term_coefficient,
        &mut p_rows,
        &mut p_cols,
        &mut p_values,
        &mut a_rows,
        &mut a_cols,
        &mut a_values,
        &mut q,
        &mut b,
        &mut cones,
    );
    if recorded.len() < 8 {
        return None;
    }
    let a = number_at(recorded, 0);
    let p = number_at(recorded, 4);
    if answer != 256 * (a as u64) + 0x1_0000_0000 * (p as u64) {
        return None;
    }
    let rest = list(&recorded[8..], &p_rows, &p_cols, &mut p_values, p)?;
    let rest = list(rest, &a_rows, &a_cols, &mut a_values, a)?;
    let rest = doubles(rest, &mut q, columns)?;
    let rest = doubles(rest, &mut b, rows)?;
    if rest.len() < 4 {
        return None;
    }
    words(&rest[4..], &cones, 4 * number_at(rest, 0))
}

// The count in an answer's word.
fn count_in(answer: u64) -> usize
    ensures { result < 0x1_0000 }
{
    (answer / 256 % 0x1_0000) as usize
}

// The solution sheet and the marginal values that it gives, held against the recorded answers.
fn read_back<'a>(
    wiring: &[u8],
    readings: &[u8],
    term_index: &[u8],
    term_coefficient: &[u8],
    x: &[u8],
    z: &[u8],
    objective: u64,
    recorded: &'a [u8],
) -> Option<&'a [u8]> {
    let mut sheet = [0u8; 8192];
    let mut values = [0u8; 2048];
    let answer = capi_read_dc_solution(
        wiring,
        readings,
        term_index,
        term_coefficient,
        x,
        z,
        objective,
        &mut sheet,
    );
    let bytes = 8 * count_in(answer);
    let answer = capi_nodal_marginal_values(
        wiring,
        readings,
        term_index,
        term_coefficient,
        sheet.get(..bytes)?,
        &mut values,
    );
    let rest = doubles(recorded, &mut sheet, bytes)?;
    doubles(rest, &mut values, 8 * count_in(answer))
}

// One case: the calls on the lent slices answer what is recorded, and no more is.
fn answered(
    wiring: &[u8],
    readings: &[u8],
    term_index: &[u8],
    term_coefficient: &[u8],
    x: &[u8],
    z: &[u8],
    objective: u64,
    recorded: &[u8],
) -> bool {
    let Some(rest) = assembled(
        wiring,
        readings,
        term_index,
        term_coefficient,
        x.len(),
        z.len(),
        recorded,
    ) else {
        return false;
    };
    let Some(rest) = read_back(
        wiring,
        readings,
        term_index,
        term_coefficient,
        x,
        z,
        objective,
        rest,
    ) else {
        return false;
    };
    rest.is_empty()
}

// The case at the front of what is left, where a whole one is.
fn case_at(b: &[u8]) -> Option<Replayed>
    ensures { IfSome result (λ case. (0 < case.end) × (case.end ≤ length b.now)) }
{
    if b.len() < 32 {
        return None;
    }
    let readings_at = 32 + number_at(b, 0);
    let index_at = readings_at + number_at(b, 4);
    let coefficient_at = index_at + number_at(b, 8);
    let x_at = coefficient_at + number_at(b, 12);
    let z_at = x_at + number_at(b, 16);
    let objective_at = z_at + number_at(b, 20);
    let recorded_at = objective_at + 8;
    let end = recorded_at + number_at(b, 24);
    if b.len() < end {
        return None;
    }
    let same = answered(
        &b[32..readings_at],
        &b[readings_at..index_at],
        &b[index_at..coefficient_at],
        &b[coefficient_at..x_at],
        &b[x_at..z_at],
        &b[z_at..objective_at],
        word64(b, objective_at),
        &b[recorded_at..end],
    );
    Some(Replayed { end, same })
}

// No more cases than these are replayed.
const MOST_CASES: usize = 1000;

// Every case, of the first so many.
fn replay(b: &[u8]) {
    let mut at = 0;
    let mut cases = 0u64;
    let mut wrong = 0u64;
    for _ in 0..MOST_CASES {
        let Some(case) = case_at(&b[at..]) else {
            break;
        };
        at += case.end;
        cases += 1;
        wrong += u64::from(!case.same);
    }
    io::print_decimal(STDOUT_FILENO, cases);
    io::write_all(STDOUT_FILENO, b" cases, ");
    io::print_decimal(STDOUT_FILENO, wrong);
    io::write_all(STDOUT_FILENO, b" answered otherwise, ");
    io::print_decimal(STDOUT_FILENO, (b.len() - at) as u64);
    io::write_all(STDOUT_FILENO, b" bytes left\n");
}
