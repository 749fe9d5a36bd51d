// A list of changes on byte slices: one change call after the other.
ghost use Rattle.std.specs.Prelude.{◌≡◌, ◌+◌, ◌*◌, ◌≤◌, length};
ghost use Rattle.std.proofs.lemmas.List.Edits.{sets};
ghost use Rattle.words.specs.Words.{bytes_of};
ghost use Rattle.capi_change.specs.Told.{leaves};
ghost use Rattle.capi_change.specs.InTurn.{fed, in_turn, in_turn_call};

use crate::bytes::capi_change;
use sequence::Refusal;
use words::word32;

// The four lowest bytes of a number, at an index.
fn put(out: &mut [u8], i: usize, v: u64)
    requires { 4 * i + 4 ≤ length out.old }
    ensures { out.new ≡ sets out.old (4 * i) (bytes_of 4 v) }
{
    out[4 * i..4 * i + 4].copy_from_slice(&v.to_le_bytes()[..4]);
}

// A list of changes, twelve bytes each, one after the other: each one's number and count go to the two sheets, four
// bytes each. 1 where the list is no whole number of changes, 7 where a sheet has no word for each.
#[unsafe(no_mangle)]
pub extern "C" fn capi_run_changes(
    wiring: &[u8],
    readings: &mut [u8],
    term_index: &[u8],
    term_coefficient: &[u8],
    solution: &[u8],
    rows: &mut [u8],
    cols: &mut [u8],
    values: &mut [u8],
    changes: &[u8],
    numbers: &mut [u8],
    counted: &mut [u8],
) -> u32
    ensures { in_turn result (leaves 0 readings.new rows.new cols.new values.new) numbers.new counted.new ≡ in_turn_call (fed wiring.now term_index.now term_coefficient.now solution.now changes.now) (leaves 0 readings.old rows.old cols.old values.old) numbers.old counted.old }
{
    let (whole, rest) = changes.as_chunks::<12>();
    if !rest.is_empty() {
        return Refusal::Size.number();
    }
    let n = whole.len();
    if numbers.len() / 4 < n || counted.len() / 4 < n {
        return Refusal::Short.number();
    }
    for (i, asked) in whole.iter().enumerate() {
        let head = word32(asked, 0);
        let low = word32(asked, 4);
        let high = word32(asked, 8);
        let answer = capi_change(
            wiring,
            readings,
            term_index,
            term_coefficient,
            solution,
            rows,
            cols,
            values,
            head,
            low,
            high,
        );
        put(numbers, i, answer % 256);
        put(counted, i, answer / 256);
    }
    0
}
