// `parameter_jacobian` for one column a call.
ghost use Rattle.std.specs.Prelude.{◌≡◌, true, ◌&&◌, [], ◌∷◌, length};
ghost use Rattle.words.specs.Words.{doubles_of};
ghost use Rattle.network.specs.Sites.{network_in};
ghost use Rattle.interface.specs.Codes.{parameter_of};
ghost use Rattle.asked.specs.Asked.{parameter_asked};
ghost use Rattle.decoding.specs.Exports.{out, whole, all_whole, decoded};
ghost use Rattle.decoding.specs.Decoding.{Cells};
ghost use Rattle.selector_check.specs.Tests.{dim_of};
ghost use Rattle.sens_parameters.specs.Calls.{jacobian_call};
ghost use Rattle.capi_columns.specs.Columns.{column_out};

use asked::parameter_asked;
use decoding::Arrays;
use decoding::answer::{cells_for, pack_answer};
use decoding::decode::take;
use interface::Parameter;
use network::Lent;
use selector_check::dim_of;
use sens_parameters::parameter_jacobian;
use sequence::Refusal;
use words::encode;

fn column_out(
    lent: Lent<'_>,
    solution: &[f64],
    parameter: Parameter,
    column: u32,
    cells: &mut [f64],
    sheet: &mut [u8],
) -> u64
    requires { Cells 6544 (length sheet.old) (length cells.old) }
    ensures { out result sheet.new ≡ column_out true (dim_of (network_in lent.entry)) (jacobian_call (network_in lent.entry) solution.now parameter (column ∷ []) (doubles_of sheet.old)) sheet.old }
{
    match parameter_jacobian(lent, solution, parameter, &[column], cells) {
        Ok(count) => {
            encode(&cells[..dim_of(lent)], sheet);
            pack_answer(Ok(count))
        }
        Err(refusal) => pack_answer(Err(refusal)),
    }
}

#[unsafe(no_mangle)]
pub extern "C" fn capi_parameter_jacobian(
    wiring: &[u8],
    readings: &[u8],
    term_index: &[u8],
    term_coefficient: &[u8],
    solution: &[u8],
    parameter: u32,
    column: u32,
    sheet: &mut [u8],
) -> u64
    ensures { out result sheet.new ≡ column_out (all_whole wiring.entry readings.entry term_index.entry term_coefficient.entry && whole 8 solution.now) (dim_of (decoded wiring.entry readings.entry term_index.entry term_coefficient.entry)) (jacobian_call (decoded wiring.entry readings.entry term_index.entry term_coefficient.entry) (doubles_of solution.now) (parameter_asked (parameter_of parameter)) (column ∷ []) (doubles_of sheet.old)) sheet.old }
{
    let mut arrays = Arrays::new();
    let Some(lent) = arrays.read(wiring, readings, term_index, term_coefficient) else {
        return pack_answer(Err(Refusal::Size));
    };
    let mut solved = [0.0; 6017];
    let Some(solved) = take(solution, &mut solved) else {
        return pack_answer(Err(Refusal::Size));
    };
    let mut cells = [0.0; 6544];
    let n = cells_for(sheet.len(), 6544);
    column_out(
        lent,
        solved,
        parameter_asked(parameter),
        column,
        &mut cells[..n],
        sheet,
    )
}
