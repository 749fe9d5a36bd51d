// The calls that fill a sheet. The exports are alike but for the function that they call, since C calls each quantity
// by a name of its own.
ghost use Rattle.std.specs.Prelude.{◌≡◌, ◌&&◌};
ghost use Rattle.std.specs.Float.{binary64};
ghost use Rattle.std.specs.Float.Ieee.{of_bits};
ghost use Rattle.words.specs.Words.{doubles_of};
ghost use Rattle.decoding.specs.Exports.{out, whole, all_whole, decoded, filled_out};
ghost use Rattle.problem.specs.Calls.{nodal_call, read_call};

#[unsafe(no_mangle)]
pub extern "C" fn capi_nodal_marginal_values(
    wiring: &[u8],
    readings: &[u8],
    term_index: &[u8],
    term_coefficient: &[u8],
    solution: &[u8],
    sheet: &mut [u8],
) -> u64
    ensures { out result sheet.new ≡ filled_out (all_whole wiring.entry readings.entry term_index.entry term_coefficient.entry && whole 8 solution.now) (nodal_call (decoded wiring.entry readings.entry term_index.entry term_coefficient.entry) (doubles_of solution.now) (doubles_of sheet.old)) sheet.old }
{
    capi_problem::sheets::capi_nodal_marginal_values(
        wiring,
        readings,
        term_index,
        term_coefficient,
        solution,
        sheet,
    )
}

// The objective is a double's bits.
#[unsafe(no_mangle)]
pub extern "C" fn capi_read_dc_solution(
    wiring: &[u8],
    readings: &[u8],
    term_index: &[u8],
    term_coefficient: &[u8],
    x: &[u8],
    z: &[u8],
    objective: u64,
    sheet: &mut [u8],
) -> u64
    ensures { out result sheet.new ≡ filled_out (all_whole wiring.entry readings.entry term_index.entry term_coefficient.entry && (whole 8 x.now && whole 8 z.now)) (read_call (decoded wiring.entry readings.entry term_index.entry term_coefficient.entry) (doubles_of x.now) (doubles_of z.now) (of_bits binary64 objective) (doubles_of sheet.old)) sheet.old }
{
    capi_problem::sheets::capi_read_dc_solution(
        wiring,
        readings,
        term_index,
        term_coefficient,
        x,
        z,
        objective,
        sheet,
    )
}
