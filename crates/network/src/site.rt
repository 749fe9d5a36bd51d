// A network as it is lent, and one that has been accepted.
ghost use Rattle.network.specs.Layout.{WiringLaid, ReadingsLaid};
ghost use Rattle.network.specs.Numbers.{Wired, Termed};

use crate::Counts;

// A network as a caller lends it: four slices, not yet looked at.
#[derive(Clone, Copy)]
pub struct Lent<'a> {
    pub wiring: &'a [u32],
    pub readings: &'a [f64],
    pub term_index: &'a [u32],
    pub term_coefficient: &'a [f64],
}

// Wiring that is as long as its counts say.
#[derive(Clone, Copy)]
pub struct Wiring<'a> {
    pub counts: Counts,
    pub words: &'a [u32],
    pub ghost laid: { WiringLaid counts words.now },
}

// Wiring and readings that are as long as the counts say. It holds no `Wiring`: each path into the wiring would be longer by a field,
// and say the same.
#[derive(Clone, Copy)]
pub struct Plan<'a> {
    pub counts: Counts,
    pub wiring: &'a [u32],
    pub readings: &'a [f64],
    pub ghost wiring_laid: { WiringLaid counts wiring.now },
    pub ghost readings_laid: { ReadingsLaid counts readings.now },
}

// Those of a network whose indexes lie below its counts.
#[derive(Clone, Copy)]
pub struct Grid<'a> {
    pub plan: Plan<'a>,
    pub ghost wired: { Wired plan.counts plan.wiring.now },
}

// A network whose slices have the lengths that its counts give, and whose indexes lie below them.
#[derive(Clone, Copy)]
pub struct Site<'a> {
    pub grid: Grid<'a>,
    pub term_index: &'a [u32],
    pub term_coefficient: &'a [f64],
    pub ghost termed: { Termed grid.plan.counts grid.plan.wiring.now term_index.now term_coefficient.now },
}
