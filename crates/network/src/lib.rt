// A site network as lent slices: layouts by name, and numbers 1 to 3.
#![tactic(auto)]

pub mod check;
pub mod layout;
pub mod plans;
pub mod site;

pub use site::{Grid, Lent, Plan, Site, Wiring};

// n, m, k, R, S, q, T. They are read before they are tested against their limits, so `Few` is a clause, and no ghost field.
#[derive(Clone, Copy)]
pub struct Counts {
    pub buses: usize,
    pub branches: usize,
    pub generators: usize,
    pub references: usize,
    pub segments: usize,
    pub rows: usize,
    pub terms: usize,
}

// The wiring's parts, in the paper's order.
#[derive(Clone, Copy)]
pub enum Part {
    BrFrom,
    BrTo,
    GenBus,
    Segments,
    References,
    GeneratorFlags,
    ThermalFlags,
    AngleFlags,
    Masks,
    FlowTerms,
    GenerationTerms,
}

// The readings, in the paper's order.
#[derive(Clone, Copy)]
pub enum Field {
    BaseMva,
    Susceptance,
    Sw,
    Shift,
    FlowOffset,
    Fmax,
    Angmin,
    Angmax,
    Gmin,
    Gmax,
    Cq,
    Cl,
    Cc,
    CShed,
    Demand,
    ShuntConductance,
    HvdcInjection,
    Slopes,
    Intercepts,
    UpperMw,
    LowerMw,
}
