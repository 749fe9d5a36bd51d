// The calls that fill a sheet. The exports are alike but for the function that they call, since C calls each quantity
// by a name of its own.
ghost use Rattle.std.specs.Prelude.{◌≡◌, ◌&&◌};
ghost use Rattle.words.specs.Words.{doubles_of};
ghost use Rattle.decoding.specs.Exports.{out, whole, all_whole, decoded, filled_out};
ghost use Rattle.sens_snap.specs.Calls.{snap_call, snap_linear_call, nu_flow_call};

#[unsafe(no_mangle)]
pub extern "C" fn capi_snap(
    wiring: &[u8],
    readings: &[u8],
    term_index: &[u8],
    term_coefficient: &[u8],
    solution: &[u8],
    sheet: &mut [u8],
) -> u64
    ensures { out result sheet.new ≡ filled_out (all_whole wiring.entry readings.entry term_index.entry term_coefficient.entry && whole 8 solution.now) (snap_call (decoded wiring.entry readings.entry term_index.entry term_coefficient.entry) (doubles_of solution.now) (doubles_of sheet.old)) sheet.old }
{
    capi_sens::sheets::capi_snap(
        wiring,
        readings,
        term_index,
        term_coefficient,
        solution,
        sheet,
    )
}

#[unsafe(no_mangle)]
pub extern "C" fn capi_snap_linear(
    wiring: &[u8],
    readings: &[u8],
    term_index: &[u8],
    term_coefficient: &[u8],
    solution: &[u8],
    sheet: &mut [u8],
) -> u64
    ensures { out result sheet.new ≡ filled_out (all_whole wiring.entry readings.entry term_index.entry term_coefficient.entry && whole 8 solution.now) (snap_linear_call (decoded wiring.entry readings.entry term_index.entry term_coefficient.entry) (doubles_of solution.now) (doubles_of sheet.old)) sheet.old }
{
    capi_sens::sheets::capi_snap_linear(
        wiring,
        readings,
        term_index,
        term_coefficient,
        solution,
        sheet,
    )
}

#[unsafe(no_mangle)]
pub extern "C" fn capi_nu_flow_values(
    wiring: &[u8],
    readings: &[u8],
    term_index: &[u8],
    term_coefficient: &[u8],
    solution: &[u8],
    sheet: &mut [u8],
) -> u64
    ensures { out result sheet.new ≡ filled_out (all_whole wiring.entry readings.entry term_index.entry term_coefficient.entry && whole 8 solution.now) (nu_flow_call (decoded wiring.entry readings.entry term_index.entry term_coefficient.entry) (doubles_of solution.now) (doubles_of sheet.old)) sheet.old }
{
    capi_sens::sheets::capi_nu_flow_values(
        wiring,
        readings,
        term_index,
        term_coefficient,
        solution,
        sheet,
    )
}
