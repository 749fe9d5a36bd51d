// The network model: model/dc.rs's quantities of an accepted network.
#![tactic(auto)]

ghost use Rattle.std.specs.Prelude.{◌≡◌};
ghost use Rattle.model.specs.Kinds.{kind_number};

pub mod cost;
pub mod dc;
pub mod rows;
pub mod terms;
pub mod withdrawal;

// A linear row's limits, once read.
#[derive(Clone, Copy)]
pub enum RowLimits {
    None,
    Upper(f64),
    Lower(f64),
    Both(f64, f64),
    Equal(f64),
}

// Which limits a linear row has, without their values: a mask's number, and 4 for an equality.
#[derive(Clone, Copy, Debug, PartialEq, Eq)]
pub enum RowKind {
    None = 0,
    Upper = 1,
    Lower = 2,
    Both = 3,
    Equal = 4,
}

impl RowKind {
    // The number by which other languages know it.
    pub fn number(self) -> u32
        ensures { result ≡ kind_number self }
    {
        self as u32
    }
}
