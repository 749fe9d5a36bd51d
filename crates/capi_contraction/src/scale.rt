// `served_unit_scale`.
ghost use Rattle.std.specs.Prelude.{◌≡◌, true, length};
ghost use Rattle.words.specs.Words.{doubles_of};
ghost use Rattle.interface.specs.Codes.{operand_of, parameter_of};
ghost use Rattle.asked.specs.Asked.{scaling};
ghost use Rattle.decoding.specs.Exports.{out, filled_out};
ghost use Rattle.decoding.specs.Decoding.{Cells};

use asked::scale;
use decoding::answer::{cells_for, encode_answer};

fn scale_out(operand: u32, parameter: u32, base: f64, cells: &mut [f64], sheet: &mut [u8]) -> u64
    requires { Cells 1 (length sheet.old) (length cells.old) }
    ensures { out result sheet.new ≡ filled_out true (scaling (operand_of operand) (parameter_of parameter) base (doubles_of sheet.old)) sheet.old }
{
    let answer = scale(operand, parameter, base, cells);
    encode_answer(answer, cells, sheet)
}

#[unsafe(no_mangle)]
pub extern "C" fn capi_served_unit_scale(
    operand: u32,
    parameter: u32,
    base: f64,
    sheet: &mut [u8],
) -> u64
    ensures { out result sheet.new ≡ filled_out true (scaling (operand_of operand) (parameter_of parameter) base (doubles_of sheet.old)) sheet.old }
{
    let mut cells = [0.0; 1];
    let n = cells_for(sheet.len(), 1);
    scale_out(operand, parameter, base, &mut cells[..n], sheet)
}
