// `operand_selector`.
ghost use Rattle.std.specs.Prelude.{◌≡◌, true, ◌/◌, min, length};
ghost use Rattle.words.specs.Words.{words_of, doubles_of};
ghost use Rattle.network.specs.Sites.{network_in};
ghost use Rattle.interface.specs.Codes.{operand_of};
ghost use Rattle.asked.specs.Asked.{operand_asked};
ghost use Rattle.decoding.specs.Exports.{all_whole, decoded};
ghost use Rattle.sens_operands.specs.Calls.{selection, selector_call};
ghost use Rattle.capi_columns.specs.Columns.{selecting, selector_out};

use asked::operand_asked;
use decoding::Arrays;
use decoding::answer::{cells_for, encode_list, pack_answer};
use interface::Operand;
use network::Lent;
use sens_operands::operand_selector;
use sequence::Refusal;
use words::encode;

fn selector_out(
    lent: Lent<'_>,
    operand: Operand,
    sign_cells: &mut [f64],
    count_cells: &mut [u32],
    row_cells: &mut [u32],
    weight_cells: &mut [f64],
    sign: &mut [u8],
    counts: &mut [u8],
    rows: &mut [u8],
    weights: &mut [u8],
) -> u64
    requires elements { (length sign_cells.old ≡ min 1 (length sign.old / 8)) × (length count_cells.old ≡ min 512 (length counts.old / 4)) }
    requires entries { (length row_cells.old ≡ min 512 (length rows.old / 4)) × (length weight_cells.old ≡ min 512 (length weights.old / 8)) }
    ensures { selecting result sign.new counts.new rows.new weights.new ≡ selector_out true (selector_call (network_in lent.entry) operand (selection (doubles_of sign.old) (words_of counts.old) (words_of rows.old) (doubles_of weights.old))) sign.old counts.old rows.old weights.old }
{
    match operand_selector(
        lent,
        operand,
        sign_cells,
        count_cells,
        row_cells,
        weight_cells,
    ) {
        Ok(count) => {
            encode(&sign_cells[..1], sign);
            encode_list(
                Ok(count),
                count_cells,
                row_cells,
                weight_cells,
                counts,
                rows,
                weights,
            )
        }
        Err(refusal) => pack_answer(Err(refusal)),
    }
}

#[unsafe(no_mangle)]
pub extern "C" fn capi_operand_selector(
    wiring: &[u8],
    readings: &[u8],
    term_index: &[u8],
    term_coefficient: &[u8],
    operand: u32,
    sign: &mut [u8],
    counts: &mut [u8],
    rows: &mut [u8],
    weights: &mut [u8],
) -> u64
    ensures { selecting result sign.new counts.new rows.new weights.new ≡ selector_out (all_whole wiring.entry readings.entry term_index.entry term_coefficient.entry) (selector_call (decoded wiring.entry readings.entry term_index.entry term_coefficient.entry) (operand_asked (operand_of operand)) (selection (doubles_of sign.old) (words_of counts.old) (words_of rows.old) (doubles_of weights.old))) sign.old counts.old rows.old weights.old }
{
    let mut arrays = Arrays::new();
    let Some(lent) = arrays.read(wiring, readings, term_index, term_coefficient) else {
        return pack_answer(Err(Refusal::Size));
    };
    let mut sign_cells = [0.0; 1];
    let mut count_cells = [0u32; 512];
    let mut row_cells = [0u32; 512];
    let mut weight_cells = [0.0; 512];
    let sign_room = cells_for(sign.len(), 1);
    let count_room = (counts.len() / 4).min(512);
    let row_room = (rows.len() / 4).min(512);
    let weight_room = cells_for(weights.len(), 512);
    selector_out(
        lent,
        operand_asked(operand),
        &mut sign_cells[..sign_room],
        &mut count_cells[..count_room],
        &mut row_cells[..row_room],
        &mut weight_cells[..weight_room],
        sign,
        counts,
        rows,
        weights,
    )
}
