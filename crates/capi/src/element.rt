// Numbers of one element. The exports are alike but for the call in them, since C calls each quantity by a name of its
// own; what they share is `fill_sheet`.
ghost use Rattle.std.specs.Prelude.{◌≡◌, ◌&&◌};
ghost use Rattle.std.specs.Float.{binary64};
ghost use Rattle.std.specs.Float.Ieee.{of_bits};
ghost use Rattle.words.specs.Words.{doubles_of};
ghost use Rattle.model.specs.Calls.{shed_cap_call, flow_offset_call, generator_cost_call, evaluate_call};
ghost use Rattle.decoding.specs.Exports.{out, whole, all_whole, decoded, filled_out};

use decoding::answer::pack_answer;
use decoding::decode::take;
use decoding::fill::fill_sheet;
use model::dc::{current_flow_offset, evaluate, generator_cost, shed_cap};
use sequence::Refusal;
use words::number;

#[unsafe(no_mangle)]
pub extern "C" fn capi_shed_cap(
    wiring: &[u8],
    readings: &[u8],
    term_index: &[u8],
    term_coefficient: &[u8],
    bus: usize,
    sheet: &mut [u8],
) -> u64
    ensures { out result sheet.new ≡ filled_out (all_whole wiring.entry readings.entry term_index.entry term_coefficient.entry) (shed_cap_call (decoded wiring.entry readings.entry term_index.entry term_coefficient.entry) bus (doubles_of sheet.old)) sheet.old }
{
    fill_sheet::<1, _>(
        wiring,
        readings,
        term_index,
        term_coefficient,
        sheet,
        |lent, cells| shed_cap(lent, bus, cells),
    )
}

#[unsafe(no_mangle)]
pub extern "C" fn capi_current_flow_offset(
    wiring: &[u8],
    readings: &[u8],
    term_index: &[u8],
    term_coefficient: &[u8],
    branch: usize,
    sheet: &mut [u8],
) -> u64
    ensures { out result sheet.new ≡ filled_out (all_whole wiring.entry readings.entry term_index.entry term_coefficient.entry) (flow_offset_call (decoded wiring.entry readings.entry term_index.entry term_coefficient.entry) branch (doubles_of sheet.old)) sheet.old }
{
    fill_sheet::<1, _>(
        wiring,
        readings,
        term_index,
        term_coefficient,
        sheet,
        |lent, cells| current_flow_offset(lent, branch, cells),
    )
}

#[unsafe(no_mangle)]
pub extern "C" fn capi_generator_cost(
    wiring: &[u8],
    readings: &[u8],
    term_index: &[u8],
    term_coefficient: &[u8],
    generator: usize,
    power: u64,
    sheet: &mut [u8],
) -> u64
    ensures { out result sheet.new ≡ filled_out (all_whole wiring.entry readings.entry term_index.entry term_coefficient.entry) (generator_cost_call (decoded wiring.entry readings.entry term_index.entry term_coefficient.entry) generator (of_bits binary64 power) (doubles_of sheet.old)) sheet.old }
{
    fill_sheet::<1, _>(
        wiring,
        readings,
        term_index,
        term_coefficient,
        sheet,
        |lent, cells| generator_cost(lent, generator, number(power), cells),
    )
}

#[unsafe(no_mangle)]
pub extern "C" fn capi_evaluate(
    wiring: &[u8],
    readings: &[u8],
    term_index: &[u8],
    term_coefficient: &[u8],
    row: usize,
    f: &[u8],
    pg: &[u8],
    sheet: &mut [u8],
) -> u64
    ensures { out result sheet.new ≡ filled_out (all_whole wiring.entry readings.entry term_index.entry term_coefficient.entry && (whole 8 f.now && whole 8 pg.now)) (evaluate_call (decoded wiring.entry readings.entry term_index.entry term_coefficient.entry) row (doubles_of f.now) (doubles_of pg.now) (doubles_of sheet.old)) sheet.old }
{
    let mut fs = [0.0; 512];
    let Some(flows) = take(f, &mut fs) else {
        return pack_answer(Err(Refusal::Size));
    };
    let mut ps = [0.0; 256];
    let Some(powers) = take(pg, &mut ps) else {
        return pack_answer(Err(Refusal::Size));
    };
    fill_sheet::<1, _>(
        wiring,
        readings,
        term_index,
        term_coefficient,
        sheet,
        |lent, cells| evaluate(lent, row, flows, powers, cells),
    )
}
