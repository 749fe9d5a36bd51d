// The KKT matrix as triplets in three sheets: on bytes, and on typed sheets with no decoding.
ghost use Rattle.std.specs.Prelude.{◌≡◌, ◌&&◌, []};
ghost use Rattle.words.specs.Words.{words_of, doubles_of};
ghost use Rattle.network.specs.Numbers.{lent};
ghost use Rattle.kkt.specs.Slots.Rule.{first_place};
ghost use Rattle.decoding.specs.Exports.{outs, whole, all_whole, decoded, laid_out};
ghost use Rattle.sens_dc.specs.Calls.{matrix_call};
ghost use Rattle.capi_sens.specs.Packed.{packed_laid, packing};

use decoding::Arrays;
use decoding::answer::pack_answer;
use decoding::decode::take;
use decoding::list::fill_list_cells;
use network::Lent;
use sens_dc::kkt_triplets;
use sequence::Refusal;

#[unsafe(no_mangle)]
pub extern "C" fn sens_kkt_triplets(
    wiring: &[u32],
    readings: &[f64],
    term_index: &[u32],
    term_coefficient: &[f64],
    solution: &[f64],
    rows: &mut [u32],
    cols: &mut [u32],
    values: &mut [f64],
) -> u64
    ensures { packed_laid result rows.new cols.new values.new ≡ packing (matrix_call first_place [] (lent wiring.entry readings.entry term_index.entry term_coefficient.entry) solution.now rows.old cols.old values.old) }
{
    let lent = Lent {
        wiring,
        readings,
        term_index,
        term_coefficient,
    };
    pack_answer(kkt_triplets(lent, solution, rows, cols, values))
}

#[unsafe(no_mangle)]
pub extern "C" fn capi_kkt_triplets(
    wiring: &[u8],
    readings: &[u8],
    term_index: &[u8],
    term_coefficient: &[u8],
    solution: &[u8],
    rows: &mut [u8],
    cols: &mut [u8],
    values: &mut [u8],
) -> u64
    ensures { outs result rows.new cols.new values.new ≡ laid_out (all_whole wiring.entry readings.entry term_index.entry term_coefficient.entry && whole 8 solution.now) (matrix_call first_place [] (decoded wiring.entry readings.entry term_index.entry term_coefficient.entry) (doubles_of solution.now) (words_of rows.old) (words_of cols.old) (doubles_of values.old)) rows.old cols.old values.old }
{
    let mut arrays = Arrays::new();
    let Some(lent) = arrays.read(wiring, readings, term_index, term_coefficient) else {
        return pack_answer(Err(Refusal::Size));
    };
    let mut solved = [0.0; 6017];
    let Some(solved) = take(solution, &mut solved) else {
        return pack_answer(Err(Refusal::Size));
    };
    let solution: &[f64] = solved;
    fill_list_cells::<27552, _>(
        lent,
        rows,
        cols,
        values,
        |lent, r, c, v| kkt_triplets(lent, solution, r, c, v),
    )
}
