// Calls that fill three sheets with a list of triplets, on a network's four slices as bytes.
ghost use Rattle.std.specs.Prelude.{◌<◌, length};
ghost use Rattle.network.specs.Sites.{network_in};
ghost use Rattle.decoding.specs.Exports.{all_whole, decoded};
ghost use Rattle.decoding.specs.Listing.{ListsWithin, ListMade, ListExported};

use crate::Arrays;
use crate::answer::{encode_list, list_room, pack_answer};
use network::Lent;
use sequence::{Answer, Refusal};

// A network that was read is lent to the call with cells for at most `MOST` triplets, and the list that the call leaves
// in front of them goes to the sheets.
pub fn fill_list_cells<
    const MOST: usize,
    F: FnOnce(Lent<'_>, &mut [u32], &mut [u32], &mut [f64]) -> Answer,
>(lent: Lent<'_>, rows: &mut [u8], cols: &mut [u8], values: &mut [u8], call: F) -> u64
    requires most { MOST < 0x1_0000_0000 }
    requires call { ListsWithin MOST (length rows.old) (length cols.old) (length values.old) (F.pre call) (F.post call) }
    ensures { ListMade (network_in lent.entry) MOST (F.post call) result rows.old cols.old values.old rows.new cols.new values.new }
{
    let mut row_cells = [0u32; MOST];
    let mut col_cells = [0u32; MOST];
    let mut value_cells = [0.0; MOST];
    let n = list_room(MOST, rows.len(), cols.len(), values.len());
    let r = &mut row_cells[..n];
    let c = &mut col_cells[..n];
    let v = &mut value_cells[..n];
    let answer = call(lent, r, c, v);
    encode_list(answer, r, c, v, rows, cols, values)
}

// The same for the network of four slices. Slices that are no network are refused at once.
pub fn fill_list<
    const MOST: usize,
    F: FnOnce(Lent<'_>, &mut [u32], &mut [u32], &mut [f64]) -> Answer,
>(
    wiring: &[u8],
    readings: &[u8],
    term_index: &[u8],
    term_coefficient: &[u8],
    rows: &mut [u8],
    cols: &mut [u8],
    values: &mut [u8],
    call: F,
) -> u64
    requires most { MOST < 0x1_0000_0000 }
    requires call { ListsWithin MOST (length rows.old) (length cols.old) (length values.old) (F.pre call) (F.post call) }
    ensures { ListExported (all_whole wiring.entry readings.entry term_index.entry term_coefficient.entry) (decoded wiring.entry readings.entry term_index.entry term_coefficient.entry) MOST (F.post call) result rows.old cols.old values.old rows.new cols.new values.new }
{
    let mut arrays = Arrays::new();
    let Some(lent) = arrays.read(wiring, readings, term_index, term_coefficient) else {
        return pack_answer(Err(Refusal::Size));
    };
    fill_list_cells::<MOST, _>(lent, rows, cols, values, call)
}
