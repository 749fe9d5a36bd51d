// Numbers of every bus. The exports are alike but for the call in them, since C calls each quantity by a name of its
// own; what they share is `fill_sheet`.
ghost use Rattle.std.specs.Prelude.{◌≡◌};
ghost use Rattle.words.specs.Words.{doubles_of};
ghost use Rattle.model.specs.Calls.{phase_call, network_call, fixed_call};
ghost use Rattle.decoding.specs.Exports.{out, all_whole, decoded, filled_out};

use decoding::fill::fill_sheet;
use model::dc::{current_fixed_withdrawal, network_withdrawal, phase_withdrawal};

#[unsafe(no_mangle)]
pub extern "C" fn capi_phase_withdrawal(
    wiring: &[u8],
    readings: &[u8],
    term_index: &[u8],
    term_coefficient: &[u8],
    sheet: &mut [u8],
) -> u64
    ensures { out result sheet.new ≡ filled_out (all_whole wiring.entry readings.entry term_index.entry term_coefficient.entry) (phase_call (decoded wiring.entry readings.entry term_index.entry term_coefficient.entry) (doubles_of sheet.old)) sheet.old }
{
    fill_sheet::<256, _>(
        wiring,
        readings,
        term_index,
        term_coefficient,
        sheet,
        phase_withdrawal,
    )
}

#[unsafe(no_mangle)]
pub extern "C" fn capi_network_withdrawal(
    wiring: &[u8],
    readings: &[u8],
    term_index: &[u8],
    term_coefficient: &[u8],
    sheet: &mut [u8],
) -> u64
    ensures { out result sheet.new ≡ filled_out (all_whole wiring.entry readings.entry term_index.entry term_coefficient.entry) (network_call (decoded wiring.entry readings.entry term_index.entry term_coefficient.entry) (doubles_of sheet.old)) sheet.old }
{
    fill_sheet::<256, _>(
        wiring,
        readings,
        term_index,
        term_coefficient,
        sheet,
        network_withdrawal,
    )
}

#[unsafe(no_mangle)]
pub extern "C" fn capi_current_fixed_withdrawal(
    wiring: &[u8],
    readings: &[u8],
    term_index: &[u8],
    term_coefficient: &[u8],
    sheet: &mut [u8],
) -> u64
    ensures { out result sheet.new ≡ filled_out (all_whole wiring.entry readings.entry term_index.entry term_coefficient.entry) (fixed_call (decoded wiring.entry readings.entry term_index.entry term_coefficient.entry) (doubles_of sheet.old)) sheet.old }
{
    fill_sheet::<256, _>(
        wiring,
        readings,
        term_index,
        term_coefficient,
        sheet,
        current_fixed_withdrawal,
    )
}
