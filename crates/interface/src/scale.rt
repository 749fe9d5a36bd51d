// From per-unit to served units: the scale of an operand, of a parameter, and of the cell of the two.
ghost use Rattle.std.specs.Prelude.{◌≡◌};
ghost use Rattle.sequence.specs.Answers.{answered};
ghost use Rattle.interface.specs.Scales.{operand_scale, parameter_scale, scale_call};

use crate::{Operand, Parameter};
use float64::{base_high, base_low, in_range};
use sequence::{Answer, Refusal};

// An operand's scale: power in MW or MVAr, prices per MW; voltages stay per unit.
fn operand_served_scale(o: Operand, base: f64) -> f64
    ensures { result ≡ operand_scale o base }
{
    match o {
        Operand::Price(_) => 1.0 / base,
        Operand::Dispatch(_) | Operand::Flow { .. } => base,
        Operand::Voltage(_) => 1.0,
    }
}

// A parameter's scale: power quantities are MW or MVAr; voltage bounds, costs and admittances stay per unit.
fn parameter_served_scale(p: Parameter, base: f64) -> f64
    ensures { result ≡ parameter_scale p base }
{
    match p {
        Parameter::Demand(_)
        | Parameter::LineLimit
        | Parameter::GenBound { .. }
        | Parameter::ConstraintLimit => base,
        Parameter::VoltageBound(_)
        | Parameter::Cost(_)
        | Parameter::SeriesAdmittance(_)
        | Parameter::ShuntAdmittance(_)
        | Parameter::Transformer(_)
        | Parameter::Switching => 1.0,
    }
}

// The scale of a cell into out[0]: number 3 for a base outside its limits, 7 where out has no word.
pub fn served_unit_scale(o: Operand, p: Parameter, base: f64, out: &mut [f64]) -> Answer
    ensures { answered result out.new ≡ scale_call o p base out.old }
{
    if !in_range(base, base_low(), base_high()) {
        return Err(Refusal::Reading);
    }
    if out.is_empty() {
        return Err(Refusal::Short);
    }
    out[0] = operand_served_scale(o, base) / parameter_served_scale(p, base);
    Ok(1)
}
