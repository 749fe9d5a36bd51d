// A call's answer: number and count in one word, and its result's bytes in front.
ghost use Rattle.std.specs.Prelude.{◌≡◌, true, ◌<◌, ◌≤◌, ◌*◌, length};
ghost use Rattle.sequence.specs.Answers.{number_of, count_of, filled, answered};
ghost use Rattle.sequence.specs.Sheets.{laid, listed};
ghost use Rattle.decoding.specs.Exports.{packed, out, filled_out, outs, laid_out};
ghost use Rattle.decoding.specs.Decoding.{Cells, list_room};

use sequence::{Answer, count, number};
use words::encode;

pub fn pack(number: u32, count: usize) -> u64
    requires { count < 0x1_0000_0000 }
    ensures { result ≡ packed number count }
{
    (number as u64) + 256 * (count as u64)
}

pub fn pack_answer(answer: Answer) -> u64
    requires { count_of answer < 0x1_0000_0000 }
    ensures { result ≡ packed (number_of answer) (count_of answer) }
{
    pack(number(answer), count(answer))
}

// How many of at most `most` doubles go to a number of bytes.
pub fn cells_for(bytes: usize, most: usize) -> usize
    ensures { Cells most bytes result }
{
    (bytes / 8).min(most)
}

pub fn answered(number: u32, count: usize, cells: &[f64], sheet: &mut [u8]) -> u64
    requires { (count ≤ length cells.now) × (count < 0x1_0000_0000) × (8 * count ≤ length sheet.old) }
    ensures { out result sheet.new ≡ filled_out true (filled number count cells.now) sheet.old }
{
    encode(&cells[..count], sheet);
    pack(number, count)
}

pub fn encode_answer(answer: Answer, cells: &[f64], sheet: &mut [u8]) -> u64
    requires { (count_of answer ≤ length cells.now) × (count_of answer < 0x1_0000_0000) × (8 * count_of answer ≤ length sheet.old) }
    ensures { out result sheet.new ≡ filled_out true (answered answer cells.now) sheet.old }
{
    answered(number(answer), count(answer), cells, sheet)
}

// How many of at most `most` triplets go to three numbers of bytes.
pub fn list_room(most: usize, rows: usize, cols: usize, values: usize) -> usize
    ensures { result ≡ list_room most rows cols values }
{
    most.min((rows / 4).min((cols / 4).min(values / 8)))
}

// The same for a list in three sheets.
// Here and in `encode_list` the sheets stay single: the cells as the call took them, the bytes as C lends them.
pub fn listed(
    number: u32,
    count: usize,
    r: &[u32],
    c: &[u32],
    v: &[f64],
    rows: &mut [u8],
    cols: &mut [u8],
    values: &mut [u8],
) -> u64
    requires count_in_bounds { (count ≤ length r.now) × (count ≤ length c.now) × (count ≤ length v.now) × (count < 0x1_0000_0000) }
    requires count_in_bounds_2 { (4 * count ≤ length rows.old) × (4 * count ≤ length cols.old) × (8 * count ≤ length values.old) }
    ensures { outs result rows.new cols.new values.new ≡ laid_out true (laid number count r.now c.now v.now) rows.old cols.old values.old }
{
    encode(&r[..count], rows);
    encode(&c[..count], cols);
    encode(&v[..count], values);
    pack(number, count)
}

pub fn encode_list(
    answer: Answer,
    r: &[u32],
    c: &[u32],
    v: &[f64],
    rows: &mut [u8],
    cols: &mut [u8],
    values: &mut [u8],
) -> u64
    requires count_in_bounds { (count_of answer ≤ length r.now) × (count_of answer ≤ length c.now) × (count_of answer ≤ length v.now) × (count_of answer < 0x1_0000_0000) }
    requires count_in_bounds_2 { (4 * count_of answer ≤ length rows.old) × (4 * count_of answer ≤ length cols.old) × (8 * count_of answer ≤ length values.old) }
    ensures { outs result rows.new cols.new values.new ≡ laid_out true (listed answer r.now c.now v.now) rows.old cols.old values.old }
{
    listed(number(answer), count(answer), r, c, v, rows, cols, values)
}
