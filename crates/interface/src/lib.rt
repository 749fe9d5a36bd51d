// The vocabulary of sens/interface.rs: what a sensitivity is taken of, what with respect to, and by which solve;
// with the scale from per-unit to served units.
#![tactic(auto)]

pub mod axes;
pub mod codes;
pub mod scale;

// Active or reactive power.
#[derive(Clone, Copy, Debug, PartialEq, Eq)]
pub enum Power {
    Active,
    Reactive,
}

// Which end of a branch a flow is measured at.
#[derive(Clone, Copy, Debug, PartialEq, Eq)]
pub enum End {
    From,
    To,
}

// How a voltage is represented: polar, or the W-space lift with |V|² and the two parts of Vi Vj*.
#[derive(Clone, Copy, Debug, PartialEq, Eq)]
pub enum VoltageKind {
    Magnitude,
    Angle,
    Squared,
    ProductReal,
    ProductImag,
}

// Which generation-cost coefficient.
#[derive(Clone, Copy, Debug, PartialEq, Eq)]
pub enum CostTerm {
    Quadratic,
    Linear,
}

// The real or the imaginary part of an admittance.
#[derive(Clone, Copy, Debug, PartialEq, Eq)]
pub enum GB {
    Conductance,
    Susceptance,
}

// A lower or an upper bound.
#[derive(Clone, Copy, Debug, PartialEq, Eq)]
pub enum Bound {
    Min,
    Max,
}

// A transformer control.
#[derive(Clone, Copy, Debug, PartialEq, Eq)]
pub enum TapKind {
    Ratio,
    PhaseShift,
}

// What a sensitivity is taken of.
#[derive(Clone, Copy, Debug, PartialEq, Eq)]
pub enum Operand {
    // Nodal-balance dual, per bus.
    Price(Power),
    // Generator dispatch, per generator.
    Dispatch(Power),
    // Branch flow at one end, per branch.
    Flow { power: Power, end: End },
    // Bus voltage in the formulation's representation.
    Voltage(VoltageKind),
}

// What a sensitivity is taken with respect to.
#[derive(Clone, Copy, Debug, PartialEq, Eq)]
pub enum Parameter {
    // Bus demand, per bus.
    Demand(Power),
    // Generation cost coefficient, per generator.
    Cost(CostTerm),
    // Thermal limit, per branch.
    LineLimit,
    // Branch series admittance, per branch.
    SeriesAdmittance(GB),
    // Bus shunt admittance, per bus.
    ShuntAdmittance(GB),
    // Voltage-magnitude bound, per bus.
    VoltageBound(Bound),
    // Generator output bound, per generator.
    GenBound { power: Power, bound: Bound },
    // Transformer tap ratio or phase shift, per branch.
    Transformer(TapKind),
    // Branch switching state, per branch.
    Switching,
    // A shift of both limits of a linear row, per row.
    ConstraintLimit,
}

// Which linear systems are solved: with the matrix, with its transpose, or whichever is smaller.
#[derive(Clone, Copy, Debug, PartialEq, Eq)]
pub enum Mode {
    Forward,
    Adjoint,
    Auto,
}

// The element family that an operand or a parameter ranges over.
#[derive(Clone, Copy, Debug, PartialEq, Eq)]
pub enum Axis {
    Bus,
    Branch,
    Generator,
    Constraint,
}
