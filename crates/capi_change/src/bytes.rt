// On byte slices.
ghost use Rattle.std.specs.Prelude.{◌≡◌, true, ◌&&◌, [], ◌*◌, length};
ghost use Rattle.words.specs.Words.{words_of, doubles_of};
ghost use Rattle.kkt.specs.Slots.Rule.{first_place};
ghost use Rattle.decoding.specs.Exports.{whole};
ghost use Rattle.decoding.specs.Decoding.{ListCells};
ghost use Rattle.job_book.specs.Book.{change, given, words, step};
ghost use Rattle.capi_change.specs.Told.{given_in, words_in, leaves, told_bytes};

use change::change;
use decoding::answer::{encode_list, list_room, pack_answer};
use decoding::decode::take;
use decoding::{Arrays, Taken};
use job_book::Change;
use sequence::Refusal;
use words::encode;

// A decoded change, and what it leaves back into bytes.
// The slices stay single: the cells as `change` takes them, the bytes as C lends them.
fn change_out(
    wiring: &[u32],
    readings: &mut [f64],
    term_index: &[u32],
    term_coefficient: &[f64],
    solution: &[f64],
    row_cells: &mut [u32],
    col_cells: &mut [u32],
    value_cells: &mut [f64],
    asked: Change,
    read: &mut [u8],
    rows: &mut [u8],
    cols: &mut [u8],
    values: &mut [u8],
) -> u64
    requires list_cells { ListCells 27552 (length rows.old) (length cols.old) (length values.old) (length row_cells.old) (length col_cells.old) (length value_cells.old) }
    requires readings_value { 8 * length readings.old ≡ length read.old }
    ensures { leaves result read.new rows.new cols.new values.new ≡ told_bytes true (step (given wiring.now term_index.now term_coefficient.now solution.now) first_place (λ W h. []) (words readings.old (words_of rows.old) (words_of cols.old) (doubles_of values.old)) asked) read.old rows.old cols.old values.old }
{
    let answer = change(
        wiring,
        readings,
        term_index,
        term_coefficient,
        solution,
        row_cells,
        col_cells,
        value_cells,
        asked,
    );
    if answer.is_err() {
        return pack_answer(answer);
    }
    encode(readings, read);
    encode_list(
        answer,
        row_cells,
        col_cells,
        value_cells,
        rows,
        cols,
        values,
    )
}

#[unsafe(no_mangle)]
pub extern "C" fn capi_change(
    wiring: &[u8],
    readings: &mut [u8],
    term_index: &[u8],
    term_coefficient: &[u8],
    solution: &[u8],
    rows: &mut [u8],
    cols: &mut [u8],
    values: &mut [u8],
    head: u32,
    low: u32,
    high: u32,
) -> u64
    ensures { leaves result readings.new rows.new cols.new values.new ≡ told_bytes ((whole 4 wiring.now && (whole 8 readings.old && (whole 4 term_index.now && whole 8 term_coefficient.now))) && whole 8 solution.now) (step (given_in wiring.entry term_index.entry term_coefficient.entry solution.entry) first_place (λ W h. []) (words_in readings.entry rows.entry cols.entry values.entry) (change head low high)) readings.old rows.old cols.old values.old }
{
    let arrays = &mut Arrays::new();
    let Some(taken) = arrays.fill(wiring, readings, term_index, term_coefficient) else {
        return pack_answer(Err(Refusal::Size));
    };
    let Taken {
        wiring,
        readings: doubles,
        term_index,
        term_coefficient,
    } = taken;
    let mut solved = [0.0; 6017];
    let Some(solved) = take(solution, &mut solved) else {
        return pack_answer(Err(Refusal::Size));
    };
    let mut row_cells = [0u32; 27552];
    let mut col_cells = [0u32; 27552];
    let mut value_cells = [0.0; 27552];
    let room = list_room(27552, rows.len(), cols.len(), values.len());
    change_out(
        wiring,
        doubles,
        term_index,
        term_coefficient,
        solved,
        &mut row_cells[..room],
        &mut col_cells[..room],
        &mut value_cells[..room],
        Change::of(head, low, high),
        readings,
        rows,
        cols,
        values,
    )
}
