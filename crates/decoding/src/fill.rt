// Calls that fill one sheet with doubles, on a network's four slices as bytes.
ghost use Rattle.std.specs.Prelude.{◌≡◌, ◌<◌, length};
ghost use Rattle.network.specs.Sites.{network_in};
ghost use Rattle.decoding.specs.Exports.{all_whole, decoded};
ghost use Rattle.decoding.specs.Decoding.{fits};
ghost use Rattle.decoding.specs.Filling.{FillsWithin, Made, Exported, pre_at, post_at, ExportedAt};

use crate::Arrays;
use crate::answer::{cells_for, encode_answer, pack_answer};
use crate::decode::take;
use network::Lent;
use sequence::{Answer, Refusal};

// A network that was read is lent to the call with cells for at most `MOST` doubles, and what the call leaves in front
// of them goes to the sheet.
pub fn fill_cells<const MOST: usize, F: FnOnce(Lent<'_>, &mut [f64]) -> Answer>(
    lent: Lent<'_>,
    sheet: &mut [u8],
    call: F,
) -> u64
    requires most { MOST < 0x1_0000_0000 }
    requires call { FillsWithin MOST (length sheet.old) (F.pre call) (F.post call) }
    ensures { Made (network_in lent.entry) MOST (F.post call) result sheet.old sheet.new }
{
    let mut cells = [0.0; MOST];
    let n = cells_for(sheet.len(), MOST);
    let answer = call(lent, &mut cells[..n]);
    encode_answer(answer, &cells[..n], sheet)
}

// The same for the network of four slices. Slices that are no network are refused at once.
pub fn fill_sheet<const MOST: usize, F: FnOnce(Lent<'_>, &mut [f64]) -> Answer>(
    wiring: &[u8],
    readings: &[u8],
    term_index: &[u8],
    term_coefficient: &[u8],
    sheet: &mut [u8],
    call: F,
) -> u64
    requires most { MOST < 0x1_0000_0000 }
    requires call { FillsWithin MOST (length sheet.old) (F.pre call) (F.post call) }
    ensures { Exported (all_whole wiring.entry readings.entry term_index.entry term_coefficient.entry) (decoded wiring.entry readings.entry term_index.entry term_coefficient.entry) MOST (F.post call) result sheet.old sheet.new }
{
    let mut arrays = Arrays::new();
    let Some(lent) = arrays.read(wiring, readings, term_index, term_coefficient) else {
        return pack_answer(Err(Refusal::Size));
    };
    fill_cells::<MOST, _>(lent, sheet, call)
}

// The same for a call that takes a solution sheet too, of which no network's has more than 6,017 doubles. It is decoded
// where the slices are a network, and before there are any cells.
pub fn fill_from_solution<const MOST: usize, F: FnOnce(Lent<'_>, &[f64], &mut [f64]) -> Answer>(
    wiring: &[u8],
    readings: &[u8],
    term_index: &[u8],
    term_coefficient: &[u8],
    solution: &[u8],
    sheet: &mut [u8],
    call: F,
) -> u64
    requires most { MOST < 0x1_0000_0000 }
    requires call { FillsWithin MOST (length sheet.old) (pre_at (F.pre call) solution.now) (post_at (F.post call) solution.now) }
    ensures { ExportedAt (fits 8 solution.now 6017) (all_whole wiring.entry readings.entry term_index.entry term_coefficient.entry) (decoded wiring.entry readings.entry term_index.entry term_coefficient.entry) MOST (post_at (F.post call) solution.now) result sheet.old sheet.new }
{
    let mut arrays = Arrays::new();
    let Some(lent) = arrays.read(wiring, readings, term_index, term_coefficient) else {
        return pack_answer(Err(Refusal::Size));
    };
    let mut solved = [0.0; 6017];
    let Some(solved) = take(solution, &mut solved) else {
        return pack_answer(Err(Refusal::Size));
    };
    let solution: &[f64] = solved;
    fill_cells::<MOST, _>(
        lent,
        sheet,
        |lent, cells|
            requires { (c : _) → c.now ≡ cells.old → F.pre call lent solution c }
            ensures { (c : _) × (d : _) × (c.now ≡ cells.old) × (d.now ≡ cells.new) × F.post call lent.entry solution.entry c result d }
        { call(lent, solution, cells) },
    )
}
