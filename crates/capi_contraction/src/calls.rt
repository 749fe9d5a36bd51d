// The calls before and after the solve.
ghost use Rattle.std.specs.Prelude.{◌≡◌, true, ◌&&◌, [], ◌∷◌, length, is_some, IfSome};
ghost use Rattle.words.specs.Words.{words_of, doubles_of};
ghost use Rattle.network.specs.Sites.{network_in};
ghost use Rattle.interface.specs.Codes.{mode_of};
ghost use Rattle.asked.specs.Asked.{mode_asked};
ghost use Rattle.decoding.specs.Exports.{out, all_whole, decoded, filled_out};
ghost use Rattle.decoding.specs.Decoding.{Cells};
ghost use Rattle.contraction.specs.Contraction.{selector};
ghost use Rattle.contraction.specs.Selectors.{selector_in};
ghost use Rattle.sens.specs.Calls.{first_call, third_call};
ghost use Rattle.capi_contraction.specs.Contraction.{entries_fit, sheets_fit, written, first_out};

use asked::mode_asked;
use contraction::Selector;
use decoding::Arrays;
use decoding::answer::{cells_for, encode_answer, pack_answer};
use decoding::decode::take;
use interface::Mode;
use network::Lent;
use sens::{contraction_first, contraction_third};
use sequence::{Refusal, count};
use words::encode;

// An element's entries, of which there are at most the greatest dim.
#[derive(Drop)]
struct Entries {
    rows: [u32; 6544],
    weights: [f64; 6544],
}

// How many of the counted words are written.
fn written_words(mode: Mode, count: usize) -> usize
    ensures { result ≡ written mode count }
{
    match mode {
        Mode::Adjoint => count,
        Mode::Forward | Mode::Auto => 0,
    }
}

impl Entries {
    // No entries yet.
    fn new() -> Entries {
        Entries {
            rows: [0; 6544],
            weights: [0.0; 6544],
        }
    }

    // The selector of the slices' entries.
    fn selector<'a>(
        &'a mut self,
        sign: f64,
        counts: &'a [u32],
        rows: &[u8],
        weights: &[u8],
    ) -> Option<Selector<'a>>
        ensures fit { is_some result ≡ entries_fit rows.now weights.now }
        ensures read { IfSome result (λ s. selector_in s ≡ selector sign counts.now (words_of rows.now) (doubles_of weights.now)) }
    {
        let Entries {
            rows: words,
            weights: doubles,
        } = self;
        Some(Selector {
            sign,
            counts,
            rows: take(rows, words)?,
            weights: take(weights, doubles)?,
        })
    }
}

// Before the solve, for a selector of one element.
fn first_out(
    lent: Lent<'_>,
    mode: Mode,
    selector: Selector<'_>,
    cells: &mut [f64],
    selection: &mut [u8],
) -> u64
    requires cells { Cells 6544 (length selection.old) (length cells.old) }
    requires one { length selector.counts.now ≡ 1 }
    ensures { out result selection.new ≡ first_out true mode (first_call (network_in lent.entry) mode (selector_in selector.entry) 1 (doubles_of selection.old)) selection.old }
{
    let answer = contraction_first(lent, mode, selector, 1, cells);
    let n = written_words(mode, count(answer));
    encode(&cells[..n], selection);
    pack_answer(answer)
}

#[unsafe(no_mangle)]
pub extern "C" fn capi_contraction_first(
    wiring: &[u8],
    readings: &[u8],
    term_index: &[u8],
    term_coefficient: &[u8],
    mode: u32,
    sign: f64,
    entries: u32,
    rows: &[u8],
    weights: &[u8],
    selection: &mut [u8],
) -> u64
    ensures { out result selection.new ≡ first_out (all_whole wiring.entry readings.entry term_index.entry term_coefficient.entry && entries_fit rows.now weights.now) (mode_asked (mode_of mode)) (first_call (decoded wiring.entry readings.entry term_index.entry term_coefficient.entry) (mode_asked (mode_of mode)) (selector sign (entries ∷ []) (words_of rows.now) (doubles_of weights.now)) 1 (doubles_of selection.old)) selection.old }
{
    let mut arrays = Arrays::new();
    let Some(lent) = arrays.read(wiring, readings, term_index, term_coefficient) else {
        return pack_answer(Err(Refusal::Size));
    };
    let counts = [entries];
    let mut listed = Entries::new();
    let Some(selector) = listed.selector(sign, &counts, rows, weights) else {
        return pack_answer(Err(Refusal::Size));
    };
    let mut cells = [0.0; 6544];
    let n = cells_for(selection.len(), 6544);
    first_out(lent, mode_asked(mode), selector, &mut cells[..n], selection)
}

// After the solve, for a selector of one element. No call of `fill_sheet`, since nothing is learnt there of a closure that
// holds a struct of references, as the selector is.
fn third_out(
    lent: Lent<'_>,
    mode: Mode,
    selector: Selector<'_>,
    parameter: &[f64],
    solved: &[f64],
    cells: &mut [f64],
    sheet: &mut [u8],
) -> u64
    requires cells { Cells 1 (length sheet.old) (length cells.old) }
    requires one { length selector.counts.now ≡ 1 }
    ensures { out result sheet.new ≡ filled_out true (third_call (network_in lent.entry) mode (selector_in selector.entry) 1 parameter.now solved.now (doubles_of sheet.old)) sheet.old }
{
    let answer = contraction_third(lent, mode, selector, 1, parameter, solved, cells);
    encode_answer(answer, cells, sheet)
}

#[unsafe(no_mangle)]
pub extern "C" fn capi_contraction_third(
    wiring: &[u8],
    readings: &[u8],
    term_index: &[u8],
    term_coefficient: &[u8],
    mode: u32,
    sign: f64,
    entries: u32,
    rows: &[u8],
    weights: &[u8],
    parameter: &[u8],
    solved: &[u8],
    sheet: &mut [u8],
) -> u64
    ensures { out result sheet.new ≡ filled_out (all_whole wiring.entry readings.entry term_index.entry term_coefficient.entry && (entries_fit rows.now weights.now && sheets_fit parameter.now solved.now)) (third_call (decoded wiring.entry readings.entry term_index.entry term_coefficient.entry) (mode_asked (mode_of mode)) (selector sign (entries ∷ []) (words_of rows.now) (doubles_of weights.now)) 1 (doubles_of parameter.now) (doubles_of solved.now) (doubles_of sheet.old)) sheet.old }
{
    let mut arrays = Arrays::new();
    let Some(lent) = arrays.read(wiring, readings, term_index, term_coefficient) else {
        return pack_answer(Err(Refusal::Size));
    };
    let counts = [entries];
    let mut listed = Entries::new();
    let Some(selector) = listed.selector(sign, &counts, rows, weights) else {
        return pack_answer(Err(Refusal::Size));
    };
    let mut parameter_array = [0.0; 6544];
    let Some(parameter) = take(parameter, &mut parameter_array) else {
        return pack_answer(Err(Refusal::Size));
    };
    let mut solved_array = [0.0; 6544];
    let Some(solved) = take(solved, &mut solved_array) else {
        return pack_answer(Err(Refusal::Size));
    };
    let mut cells = [0.0; 1];
    let n = cells_for(sheet.len(), 1);
    third_out(
        lent,
        mode_asked(mode),
        selector,
        parameter,
        solved,
        &mut cells[..n],
        sheet,
    )
}
