// Numbers for other languages: each operand, parameter and mode by its place in the Rust's declaration,
// inner variants within, the last named turning first.
ghost use Rattle.interface.specs.Codes.{operand_of, parameter_of, mode_of, Decodes};

use crate::{Bound, CostTerm, End, GB, Mode, Operand, Parameter, Power, TapKind, VoltageKind};
use std::error::Error;
use std::fmt;

// A number by which nothing is known.
#[derive(Clone, Copy, Debug, PartialEq, Eq)]
pub struct UnknownCode(pub u32);

impl fmt::Display for UnknownCode {
    fn fmt<W: fmt::Write>(&self, f: &mut fmt::Formatter<W>) -> fmt::Result {
        write!(f, "nothing is known by the number {}", self.0)
    }
}

impl Error for UnknownCode {}

// Operands 0 to 12.
impl TryFrom<u32> for Operand {
    type Error = UnknownCode;

    ghost try_from_gives = { λ code r. Decodes code (operand_of code) r };

    fn try_from(code: u32) -> Result<Self, UnknownCode> {
        match code {
            0 => Ok(Operand::Price(Power::Active)),
            1 => Ok(Operand::Price(Power::Reactive)),
            2 => Ok(Operand::Dispatch(Power::Active)),
            3 => Ok(Operand::Dispatch(Power::Reactive)),
            4 => Ok(Operand::Flow {
                power: Power::Active,
                end: End::From,
            }),
            5 => Ok(Operand::Flow {
                power: Power::Active,
                end: End::To,
            }),
            6 => Ok(Operand::Flow {
                power: Power::Reactive,
                end: End::From,
            }),
            7 => Ok(Operand::Flow {
                power: Power::Reactive,
                end: End::To,
            }),
            8 => Ok(Operand::Voltage(VoltageKind::Magnitude)),
            9 => Ok(Operand::Voltage(VoltageKind::Angle)),
            10 => Ok(Operand::Voltage(VoltageKind::Squared)),
            11 => Ok(Operand::Voltage(VoltageKind::ProductReal)),
            12 => Ok(Operand::Voltage(VoltageKind::ProductImag)),
            _ => Err(UnknownCode(code)),
        }
    }
}

// Parameters 0 to 18.
impl TryFrom<u32> for Parameter {
    type Error = UnknownCode;

    ghost try_from_gives = { λ code r. Decodes code (parameter_of code) r };

    fn try_from(code: u32) -> Result<Self, UnknownCode> {
        match code {
            0 => Ok(Parameter::Demand(Power::Active)),
            1 => Ok(Parameter::Demand(Power::Reactive)),
            2 => Ok(Parameter::Cost(CostTerm::Quadratic)),
            3 => Ok(Parameter::Cost(CostTerm::Linear)),
            4 => Ok(Parameter::LineLimit),
            5 => Ok(Parameter::SeriesAdmittance(GB::Conductance)),
            6 => Ok(Parameter::SeriesAdmittance(GB::Susceptance)),
            7 => Ok(Parameter::ShuntAdmittance(GB::Conductance)),
            8 => Ok(Parameter::ShuntAdmittance(GB::Susceptance)),
            9 => Ok(Parameter::VoltageBound(Bound::Min)),
            10 => Ok(Parameter::VoltageBound(Bound::Max)),
            11 => Ok(Parameter::GenBound {
                power: Power::Active,
                bound: Bound::Min,
            }),
            12 => Ok(Parameter::GenBound {
                power: Power::Active,
                bound: Bound::Max,
            }),
            13 => Ok(Parameter::GenBound {
                power: Power::Reactive,
                bound: Bound::Min,
            }),
            14 => Ok(Parameter::GenBound {
                power: Power::Reactive,
                bound: Bound::Max,
            }),
            15 => Ok(Parameter::Transformer(TapKind::Ratio)),
            16 => Ok(Parameter::Transformer(TapKind::PhaseShift)),
            17 => Ok(Parameter::Switching),
            18 => Ok(Parameter::ConstraintLimit),
            _ => Err(UnknownCode(code)),
        }
    }
}

// Modes 0 to 2.
impl TryFrom<u32> for Mode {
    type Error = UnknownCode;

    ghost try_from_gives = { λ code r. Decodes code (mode_of code) r };

    fn try_from(code: u32) -> Result<Self, UnknownCode> {
        match code {
            0 => Ok(Mode::Forward),
            1 => Ok(Mode::Adjoint),
            2 => Ok(Mode::Auto),
            _ => Err(UnknownCode(code)),
        }
    }
}
