// The calls that fill a sheet. `capi_nodal_marginal_values` and the exports of capi_sens are alike but for the call in
// them, since C calls each quantity by a name of its own; what they share is `fill_from_solution`.
ghost use Rattle.std.specs.Prelude.{◌≡◌, ◌&&◌};
ghost use Rattle.std.specs.Float.{binary64};
ghost use Rattle.std.specs.Float.Ieee.{of_bits};
ghost use Rattle.words.specs.Words.{doubles_of};
ghost use Rattle.decoding.specs.Exports.{out, whole, all_whole, decoded, filled_out};
ghost use Rattle.problem.specs.Calls.{nodal_call, read_call};

use decoding::Arrays;
use decoding::answer::pack_answer;
use decoding::decode::take;
use decoding::fill::{fill_cells, fill_from_solution};
use problem::{nodal_marginal_values, read_dc_solution};
use sequence::Refusal;
use words::number;

#[unsafe(no_mangle)]
pub extern "C" fn capi_nodal_marginal_values(
    wiring: &[u8],
    readings: &[u8],
    term_index: &[u8],
    term_coefficient: &[u8],
    solution: &[u8],
    sheet: &mut [u8],
) -> u64
    ensures { out result sheet.new ≡ filled_out (all_whole wiring.entry readings.entry term_index.entry term_coefficient.entry && whole 8 solution.now) (nodal_call (decoded wiring.entry readings.entry term_index.entry term_coefficient.entry) (doubles_of solution.now) (doubles_of sheet.old)) sheet.old }
{
    fill_from_solution::<256, _>(
        wiring,
        readings,
        term_index,
        term_coefficient,
        solution,
        sheet,
        nodal_marginal_values,
    )
}

// The objective is a double's bits.
#[unsafe(no_mangle)]
pub extern "C" fn capi_read_dc_solution(
    wiring: &[u8],
    readings: &[u8],
    term_index: &[u8],
    term_coefficient: &[u8],
    x: &[u8],
    z: &[u8],
    objective: u64,
    sheet: &mut [u8],
) -> u64
    ensures { out result sheet.new ≡ filled_out (all_whole wiring.entry readings.entry term_index.entry term_coefficient.entry && (whole 8 x.now && whole 8 z.now)) (read_call (decoded wiring.entry readings.entry term_index.entry term_coefficient.entry) (doubles_of x.now) (doubles_of z.now) (of_bits binary64 objective) (doubles_of sheet.old)) sheet.old }
{
    let mut arrays = Arrays::new();
    let Some(lent) = arrays.read(wiring, readings, term_index, term_coefficient) else {
        return pack_answer(Err(Refusal::Size));
    };
    let mut primal = [0.0; 1536];
    let Some(columns) = take(x, &mut primal) else {
        return pack_answer(Err(Refusal::Size));
    };
    let mut dual = [0.0; 5072];
    let Some(rows) = take(z, &mut dual) else {
        return pack_answer(Err(Refusal::Size));
    };
    fill_cells::<6017, _>(
        lent,
        sheet,
        |lent, cells| read_dc_solution(lent, columns, rows, number(objective), cells),
    )
}
