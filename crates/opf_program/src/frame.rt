// What the program's entries are read from.
ghost use Rattle.network.specs.Numbers.{Termed};
ghost use Rattle.opf_layout.specs.Layout.{Narrow};

use network::Grid;
use opf_layout::OpfLayout;

// A network's grid, with the layout that says where the program's columns and rows stand.
#[derive(Clone, Copy)]
pub struct Opf<'a> {
    pub grid: Grid<'a>,
    pub layout: OpfLayout,
    pub ghost narrow: { Narrow layout },
}

// The same with the terms of the linear rows. It holds no `Site`, which would hold the grid a second time, with a clause
// that both are one.
#[derive(Clone, Copy)]
pub struct OpfSite<'a> {
    pub opf: Opf<'a>,
    pub term_index: &'a [u32],
    pub term_coefficient: &'a [f64],
    pub ghost termed: { Termed opf.grid.plan.counts opf.grid.plan.wiring.now term_index.now term_coefficient.now },
}
