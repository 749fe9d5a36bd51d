// What the matrix's columns are read from.
ghost use Rattle.std.specs.Prelude.{◌≡◌, ◌<◌};
ghost use Rattle.network.specs.Numbers.{Termed};
ghost use Rattle.solution.specs.Sheet.{pieces, size, solved, SheetLaid};
ghost use Rattle.kkt_index.specs.Index.{Narrow};

use kkt_index::KktIdx;
use network::Grid;
use solution::{Entry, solved_at};

// A network's grid and its solution sheet, with the index that says where the matrix's rows and columns stand. It holds no
// `OperatingPoint`: the index has the pieces too, and a clause would have to say that both are one.
#[derive(Clone, Copy)]
pub struct Kkt<'a> {
    pub grid: Grid<'a>,
    pub sheet: &'a [f64],
    pub index: KktIdx,
    pub ghost sheet_laid: { SheetLaid grid.plan.counts index.pieces sheet.now },
    pub ghost pieces_are: { index.pieces ≡ pieces grid.plan.counts grid.plan.wiring.now },
    pub ghost narrow: { Narrow index },
}

// The same with the terms of the linear rows.
#[derive(Clone, Copy)]
pub struct KktSite<'a> {
    pub kkt: Kkt<'a>,
    pub term_index: &'a [u32],
    pub term_coefficient: &'a [f64],
    pub ghost termed: { Termed kkt.grid.plan.counts kkt.grid.plan.wiring.now term_index.now term_coefficient.now },
}

impl Kkt<'_> {
    // Word i of an entry of the solution sheet.
    pub fn value(&self, e: Entry, i: usize) -> f64
        requires { i < size self.now.grid.plan.counts self.now.index.pieces e }
        ensures { result ≡ solved self.now.grid.plan.counts self.now.index.pieces self.now.sheet.now e i }
    {
        solved_at(self.sheet, self.grid.plan.counts, self.index.pieces, e, i)
    }
}
