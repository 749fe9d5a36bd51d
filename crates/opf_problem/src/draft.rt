// What the program is assembled from.
ghost use Rattle.opf_layout.specs.Layout.{active_of, Bounded, Placed};

use network::Site;
use opf_layout::OpfLayout;

// An accepted network, and the layout of its program.
#[derive(Clone, Copy)]
pub struct Draft<'a> {
    pub site: Site<'a>,
    pub layout: OpfLayout,
    pub ghost placed: { Placed site.grid.plan.counts (active_of site.grid.plan.counts site.grid.plan.wiring.now site.grid.plan.readings.now) layout },
    pub ghost bounded: { Bounded site.grid.plan.counts (active_of site.grid.plan.counts site.grid.plan.wiring.now site.grid.plan.readings.now) },
}
