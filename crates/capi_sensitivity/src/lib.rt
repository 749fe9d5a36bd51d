// The selector, the contraction around an outside solve and the unit scale as extern "C" functions on typed
// slices, for programs in other languages.
#![tactic(auto)]

ghost use Rattle.std.specs.Prelude.{◌≡◌, ◌≤◌, length};
ghost use Rattle.sequence.specs.Lists.{front};
ghost use Rattle.sequence.specs.Answers.{number_of, count_of};
ghost use Rattle.network.specs.Numbers.{lent};
ghost use Rattle.interface.specs.Codes.{operand_of, parameter_of, mode_of};
ghost use Rattle.contraction.specs.Contraction.{selector_of};
ghost use Rattle.sens.specs.Calls.{first_call, side_of, third_call};
ghost use Rattle.sens_operands.specs.Calls.{selection, selector_call};
ghost use Rattle.asked.specs.Asked.{operand_asked, mode_asked, scaling};
ghost use Rattle.capi_sensitivity.specs.Told.{noted, told, counting, chosen, selecting, copied, copying};

use asked::{mode_asked, operand_asked, scale};
use contraction::Selector;
use network::Lent;
use sens::{contraction_first, contraction_third, right_side};
use sens_operands::operand_selector;
use sequence::{Answer, number};

// The number, by which other languages know an answer; on 0 the count goes to its word.
fn note(answer: Answer, count: &mut usize) -> u32
    ensures { (result ≡ number_of answer) × (count.new ≡ noted (number_of answer) (count_of answer) count.old) }
{
    *count = answer.unwrap_or(*count);
    number(answer)
}

// `operand_selector`; on 0 the selector is in front of its four sheets.
#[unsafe(no_mangle)]
pub extern "C" fn sens_operand_selector(
    wiring: &[u32],
    readings: &[f64],
    term_index: &[u32],
    term_coefficient: &[f64],
    operand: u32,
    sign: &mut [f64],
    counts: &mut [u32],
    rows: &mut [u32],
    weights: &mut [f64],
    count: &mut usize,
) -> u32
    ensures { chosen result count.new (selection sign.new counts.new rows.new weights.new) ≡ selecting (selector_call (lent wiring.entry readings.entry term_index.entry term_coefficient.entry) (operand_asked (operand_of operand)) (selection sign.old counts.old rows.old weights.old)) count.old }
{
    let lent = Lent {
        wiring,
        readings,
        term_index,
        term_coefficient,
    };
    let o = operand_asked(operand);
    let answer = operand_selector(lent, o, sign, counts, rows, weights);
    note(answer, count)
}

// The call before the solve; when adjoint, the selection sheet is filled.
#[unsafe(no_mangle)]
pub extern "C" fn sens_contraction_first(
    wiring: &[u32],
    readings: &[f64],
    term_index: &[u32],
    term_coefficient: &[f64],
    mode: u32,
    sign: f64,
    counts: &[u32],
    rows: &[u32],
    weights: &[f64],
    columns: usize,
    selection: &mut [f64],
    count: &mut usize,
) -> u32
    ensures { told result count.new selection.new ≡ counting (first_call (lent wiring.entry readings.entry term_index.entry term_coefficient.entry) (mode_asked (mode_of mode)) (selector_of sign counts.entry rows.entry weights.entry) columns selection.old) count.old }
{
    let lent = Lent {
        wiring,
        readings,
        term_index,
        term_coefficient,
    };
    let selector = Selector {
        sign,
        counts,
        rows,
        weights,
    };
    let m = mode_asked(mode);
    let answer = contraction_first(lent, m, selector, columns, selection);
    note(answer, count)
}

// A part's words into the front of a sheet that holds them. By a loop: `copy_from_slice` would ask for C's `memmove`, and of C's
// functions the library asks for `memset` alone.
fn copy(part: &[f64], sheet: &mut [f64])
    requires { length part.now ≤ length sheet.old }
    ensures { sheet.new ≡ front part.now sheet.old }
{
    for (i, word) in part.iter().enumerate() {
        sheet[i] = *word;
    }
}

// The right side to be solved: its length, and where `sheet` has room its words.
#[unsafe(no_mangle)]
pub extern "C" fn sens_right_side<'a>(
    mode: u32,
    count: usize,
    parameter: &'a [f64],
    selection: &'a [f64],
    sheet: &mut [f64],
) -> usize
    ensures { copied result sheet.new ≡ copying (side_of (mode_asked (mode_of mode)) count parameter.now selection.now) sheet.old }
{
    let part = right_side(mode_asked(mode), count, parameter, selection);
    let n = part.len();
    if n <= sheet.len() {
        copy(part, sheet);
    }
    n
}

// The call after the solve.
#[unsafe(no_mangle)]
pub extern "C" fn sens_contraction_third(
    wiring: &[u32],
    readings: &[f64],
    term_index: &[u32],
    term_coefficient: &[f64],
    mode: u32,
    sign: f64,
    counts: &[u32],
    rows: &[u32],
    weights: &[f64],
    columns: usize,
    parameter: &[f64],
    solved: &[f64],
    out: &mut [f64],
    count: &mut usize,
) -> u32
    ensures { told result count.new out.new ≡ counting (third_call (lent wiring.entry readings.entry term_index.entry term_coefficient.entry) (mode_asked (mode_of mode)) (selector_of sign counts.entry rows.entry weights.entry) columns parameter.now solved.now out.old) count.old }
{
    let lent = Lent {
        wiring,
        readings,
        term_index,
        term_coefficient,
    };
    let selector = Selector {
        sign,
        counts,
        rows,
        weights,
    };
    let m = mode_asked(mode);
    let answer = contraction_third(lent, m, selector, columns, parameter, solved, out);
    note(answer, count)
}

// `served_unit_scale`; on 0 the scale is out's first word.
#[unsafe(no_mangle)]
pub extern "C" fn sens_served_unit_scale(
    operand: u32,
    parameter: u32,
    base: f64,
    out: &mut [f64],
    count: &mut usize,
) -> u32
    ensures { told result count.new out.new ≡ counting (scaling (operand_of operand) (parameter_of parameter) base out.old) count.old }
{
    note(scale(operand, parameter, base, out), count)
}
