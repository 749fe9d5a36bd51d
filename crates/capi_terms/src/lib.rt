// `evaluate` over records as an extern "C" function on numbers and byte slices: the terms are one slice, twelve bytes each.
#![tactic(auto)]

ghost use Rattle.std.specs.Prelude.{◌≡◌, true, ◌&&◌, length};
ghost use Rattle.words.specs.Words.{doubles_of};
ghost use Rattle.model.specs.Calls.{evaluate_call};
ghost use Rattle.terms.specs.Terms.{network_of};
ghost use Rattle.decoding.specs.Exports.{out, whole, filled_out};
ghost use Rattle.decoding.specs.Decoding.{Cells};
ghost use Rattle.capi_terms.specs.Records.{recorded, whole_records};

use decoding::answer::{cells_for, encode_answer, pack_answer};
use decoding::decode::take;
use sequence::Refusal;
use terms::{Term, evaluate};

// The decoded row's value, and what it leaves back into bytes.
fn evaluate_out(
    wiring: &[u32],
    readings: &[f64],
    terms: &[Term],
    row: usize,
    f: &[f64],
    pg: &[f64],
    cells: &mut [f64],
    sheet: &mut [u8],
) -> u64
    requires { Cells 1 (length sheet.old) (length cells.old) }
    ensures { out result sheet.new ≡ filled_out true (evaluate_call (network_of wiring.now readings.now terms.now) row f.now pg.now (doubles_of sheet.old)) sheet.old }
{
    let answer = evaluate(wiring, readings, terms, row, f, pg, cells);
    encode_answer(answer, cells, sheet)
}

#[unsafe(no_mangle)]
pub extern "C" fn capi_evaluate_terms(
    wiring: &[u8],
    readings: &[u8],
    terms: &[u8],
    row: usize,
    f: &[u8],
    pg: &[u8],
    sheet: &mut [u8],
) -> u64
    ensures { out result sheet.new ≡ filled_out (whole_records wiring.entry readings.entry terms.entry && (whole 8 f.now && whole 8 pg.now)) (evaluate_call (recorded wiring.entry readings.entry terms.entry) row (doubles_of f.now) (doubles_of pg.now) (doubles_of sheet.old)) sheet.old }
{
    let mut w = [0; 3033];
    let Some(wiring) = take(wiring, &mut w) else {
        return pack_answer(Err(Refusal::Size));
    };
    let mut r = [0.0; 8065];
    let Some(readings) = take(readings, &mut r) else {
        return pack_answer(Err(Refusal::Size));
    };
    let none = Term {
        index: 0,
        coefficient: 0.0,
    };
    let mut ts = [none; 1024];
    let Some(terms) = take(terms, &mut ts) else {
        return pack_answer(Err(Refusal::Size));
    };
    let mut fs = [0.0; 512];
    let Some(flows) = take(f, &mut fs) else {
        return pack_answer(Err(Refusal::Size));
    };
    let mut ps = [0.0; 256];
    let Some(powers) = take(pg, &mut ps) else {
        return pack_answer(Err(Refusal::Size));
    };
    let mut cells = [0.0; 1];
    let k = cells_for(sheet.len(), 1);
    evaluate_out(
        wiring,
        readings,
        terms,
        row,
        flows,
        powers,
        &mut cells[..k],
        sheet,
    )
}
