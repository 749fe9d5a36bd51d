// The element family of each operand and parameter.
ghost use Rattle.std.specs.Prelude.{◌≡◌};
ghost use Rattle.interface.specs.Axes.{operand_axis, parameter_axis};

use crate::{Axis, Operand, Parameter, VoltageKind};

impl Operand {
    // The element family that this operand's rows index.
    pub fn axis(self) -> Axis
        ensures { result ≡ operand_axis self }
    {
        match self {
            Operand::Voltage(kind) => match kind {
                VoltageKind::ProductReal | VoltageKind::ProductImag => Axis::Branch,
                VoltageKind::Magnitude | VoltageKind::Angle | VoltageKind::Squared => Axis::Bus,
            },
            Operand::Flow { .. } => Axis::Branch,
            Operand::Price(_) => Axis::Bus,
            Operand::Dispatch(_) => Axis::Generator,
        }
    }
}

impl Parameter {
    // The element family that this parameter's columns index.
    pub fn axis(self) -> Axis
        ensures { result ≡ parameter_axis self }
    {
        match self {
            Parameter::Demand(_) | Parameter::ShuntAdmittance(_) | Parameter::VoltageBound(_) =>
                Axis::Bus,
            Parameter::Cost(_) | Parameter::GenBound { .. } => Axis::Generator,
            Parameter::LineLimit
            | Parameter::SeriesAdmittance(_)
            | Parameter::Transformer(_)
            | Parameter::Switching => Axis::Branch,
            Parameter::ConstraintLimit => Axis::Constraint,
        }
    }
}
