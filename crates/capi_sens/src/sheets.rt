// The calls that fill a sheet. The exports are alike but for the call in them, since C calls each quantity by a name of
// its own; what they share is `fill_from_solution`.
ghost use Rattle.std.specs.Prelude.{◌≡◌, ◌&&◌};
ghost use Rattle.words.specs.Words.{doubles_of};
ghost use Rattle.decoding.specs.Exports.{out, whole, all_whole, decoded, filled_out};
ghost use Rattle.sens_snap.specs.Calls.{snap_call, snap_linear_call, nu_flow_call};

use decoding::fill::fill_from_solution;
use sens_snap::calls::{nu_flow_values, snap, snap_linear};

#[unsafe(no_mangle)]
pub extern "C" fn capi_snap(
    wiring: &[u8],
    readings: &[u8],
    term_index: &[u8],
    term_coefficient: &[u8],
    solution: &[u8],
    sheet: &mut [u8],
) -> u64
    ensures { out result sheet.new ≡ filled_out (all_whole wiring.entry readings.entry term_index.entry term_coefficient.entry && whole 8 solution.now) (snap_call (decoded wiring.entry readings.entry term_index.entry term_coefficient.entry) (doubles_of solution.now) (doubles_of sheet.old)) sheet.old }
{
    fill_from_solution::<6017, _>(
        wiring,
        readings,
        term_index,
        term_coefficient,
        solution,
        sheet,
        snap,
    )
}

#[unsafe(no_mangle)]
pub extern "C" fn capi_snap_linear(
    wiring: &[u8],
    readings: &[u8],
    term_index: &[u8],
    term_coefficient: &[u8],
    solution: &[u8],
    sheet: &mut [u8],
) -> u64
    ensures { out result sheet.new ≡ filled_out (all_whole wiring.entry readings.entry term_index.entry term_coefficient.entry && whole 8 solution.now) (snap_linear_call (decoded wiring.entry readings.entry term_index.entry term_coefficient.entry) (doubles_of solution.now) (doubles_of sheet.old)) sheet.old }
{
    fill_from_solution::<192, _>(
        wiring,
        readings,
        term_index,
        term_coefficient,
        solution,
        sheet,
        snap_linear,
    )
}

#[unsafe(no_mangle)]
pub extern "C" fn capi_nu_flow_values(
    wiring: &[u8],
    readings: &[u8],
    term_index: &[u8],
    term_coefficient: &[u8],
    solution: &[u8],
    sheet: &mut [u8],
) -> u64
    ensures { out result sheet.new ≡ filled_out (all_whole wiring.entry readings.entry term_index.entry term_coefficient.entry && whole 8 solution.now) (nu_flow_call (decoded wiring.entry readings.entry term_index.entry term_coefficient.entry) (doubles_of solution.now) (doubles_of sheet.old)) sheet.old }
{
    fill_from_solution::<512, _>(
        wiring,
        readings,
        term_index,
        term_coefficient,
        solution,
        sheet,
        nu_flow_values,
    )
}
