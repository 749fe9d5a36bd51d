// What the numbers stand for by which other languages ask for a parameter, an operand or a mode, and the unit scale
// asked for by such numbers.
// C hands any number in, so one that is no kind stands for a kind that is not served: the call refuses both alike.
#![tactic(auto)]

ghost use Rattle.std.specs.Prelude.{◌≡◌};
ghost use Rattle.sequence.specs.Answers.{refusal_number, answered};
ghost use Rattle.interface.specs.Codes.{operand_of, parameter_of, mode_of};
ghost use Rattle.asked.specs.Asked.{parameter_asked, operand_asked, mode_asked, unknown_number, scaling};

use float64::{base_high, base_low, in_range};
use interface::scale::served_unit_scale;
use interface::{Mode, Operand, Parameter, Power};
use sequence::{Answer, Refusal};

// The parameter that a number stands for; past the last, one that is not served.
pub fn parameter_asked(code: u32) -> Parameter
    ensures { result ≡ parameter_asked (parameter_of code) }
{
    Parameter::try_from(code).unwrap_or(Parameter::Demand(Power::Reactive))
}

// The operand that a number stands for; past the last, one that is not served.
pub fn operand_asked(code: u32) -> Operand
    ensures { result ≡ operand_asked (operand_of code) }
{
    Operand::try_from(code).unwrap_or(Operand::Price(Power::Reactive))
}

// The mode that a number stands for; past the last, the one that is not served.
pub fn mode_asked(code: u32) -> Mode
    ensures { result ≡ mode_asked (mode_of code) }
{
    Mode::try_from(code).unwrap_or(Mode::Auto)
}

// Why a scale is refused whose operand or parameter is none.
fn unknown(base: f64) -> Refusal
    ensures { refusal_number result ≡ unknown_number base }
{
    if !in_range(base, base_low(), base_high()) {
        return Refusal::Reading;
    }
    Refusal::Kind
}

// The scale, operand and parameter by their numbers.
pub fn scale(operand: u32, parameter: u32, base: f64, out: &mut [f64]) -> Answer
    ensures { answered result out.new ≡ scaling (operand_of operand) (parameter_of parameter) base out.old }
{
    let (Ok(o), Ok(p)) = (Operand::try_from(operand), Parameter::try_from(parameter)) else {
        return Err(unknown(base));
    };
    served_unit_scale(o, p, base, out)
}
