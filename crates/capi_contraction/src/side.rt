// The right side to be solved.
ghost use Rattle.std.specs.Prelude.{◌≡◌, true};
ghost use Rattle.words.specs.Words.{doubles_of};
ghost use Rattle.interface.specs.Codes.{mode_of};
ghost use Rattle.asked.specs.Asked.{mode_asked};
ghost use Rattle.decoding.specs.Exports.{out};
ghost use Rattle.sens.specs.Calls.{side_of};
ghost use Rattle.capi_contraction.specs.Contraction.{sheets_fit, side_out};

use asked::mode_asked;
use decoding::decode::take;
use interface::Mode;
use sens::right_side;
use words::encode;

// The part's length, and its bytes where they have room.
fn side_out<'a>(
    mode: Mode,
    count: usize,
    parameter: &'a [f64],
    selection: &'a [f64],
    sheet: &mut [u8],
) -> usize
    ensures { out result sheet.new ≡ side_out true (side_of mode count parameter.now selection.now) sheet.old }
{
    let part = right_side(mode, count, parameter, selection);
    let n = part.len();
    if n <= sheet.len() / 8 {
        encode(part, sheet);
    }
    n
}

#[unsafe(no_mangle)]
pub extern "C" fn capi_right_side(
    mode: u32,
    count: usize,
    parameter: &[u8],
    selection: &[u8],
    sheet: &mut [u8],
) -> usize
    ensures { out result sheet.new ≡ side_out (sheets_fit parameter.now selection.now) (side_of (mode_asked (mode_of mode)) count (doubles_of parameter.now) (doubles_of selection.now)) sheet.old }
{
    let mut parameter_array = [0.0; 6544];
    let Some(parameter) = take(parameter, &mut parameter_array) else {
        return 0;
    };
    let mut selection_array = [0.0; 6544];
    let Some(selection) = take(selection, &mut selection_array) else {
        return 0;
    };
    side_out(mode_asked(mode), count, parameter, selection, sheet)
}
