// A solver's raw vectors as they are lent, and beside the network whose program they solve.
ghost use Rattle.opf_layout.specs.Raw.{RawLaid};

use crate::OpfLayout;
use network::Site;

// A solver's primal and dual vectors and its objective, not yet looked at.
#[derive(Clone, Copy)]
pub struct Raw<'a> {
    pub x: &'a [f64],
    pub z: &'a [f64],
    pub objective: f64,
}

// A network with raw vectors that are as long as its program, and where the program's columns and rows stand.
#[derive(Clone, Copy)]
pub struct RawPoint<'a> {
    pub site: Site<'a>,
    pub raw: Raw<'a>,
    pub lay: OpfLayout,
    pub ghost raw_laid: { RawLaid site.grid.plan.counts site.grid.plan.wiring.now site.grid.plan.readings.now raw.x.now raw.z.now lay },
}
