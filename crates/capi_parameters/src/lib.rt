// `parameter_jacobian` as an extern "C" function on typed slices, for programs in other languages.
#![tactic(auto)]

ghost use Rattle.std.specs.Prelude.{◌≡◌};
ghost use Rattle.network.specs.Numbers.{lent};
ghost use Rattle.interface.specs.Codes.{parameter_of};
ghost use Rattle.sens_parameters.specs.Calls.{jacobian_call};
ghost use Rattle.asked.specs.Asked.{parameter_asked};
ghost use Rattle.capi_parameters.specs.Numbered.{numbered, numbering};

use asked::parameter_asked;
use network::Lent;
use sens_parameters::parameter_jacobian;
use sequence::number;

// The number; on 0 as many columns as are listed are in front of the sheet.
#[unsafe(no_mangle)]
pub extern "C" fn sens_parameter_jacobian(
    wiring: &[u32],
    readings: &[f64],
    term_index: &[u32],
    term_coefficient: &[f64],
    solution: &[f64],
    parameter: u32,
    columns: &[u32],
    sheet: &mut [f64],
) -> u32
    ensures { numbered result sheet.new ≡ numbering (jacobian_call (lent wiring.entry readings.entry term_index.entry term_coefficient.entry) solution.now (parameter_asked (parameter_of parameter)) columns.now sheet.old) }
{
    let lent = Lent {
        wiring,
        readings,
        term_index,
        term_coefficient,
    };
    number(parameter_jacobian(lent, solution, parameter_asked(parameter), columns, sheet))
}
