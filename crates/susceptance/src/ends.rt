// The branches of a grid by bus.
ghost use Rattle.std.specs.Prelude.{◌≡◌, ◌/◌, ◌%◌, eqb};
ghost use Rattle.susceptance.specs.Incidence.{Chains};

use network::Grid;

// The ends of a grid's branches, in a chain for each bus.
#[derive(Clone, Copy)]
pub struct Ends<'a> {
    pub grid: Grid<'a>,
    pub head: &'a [u32],
    pub next: &'a [u32],
    pub ghost chains: { Chains grid.plan.counts grid.plan.wiring.now head.now next.now },
}

// The branch of end x: the ends of branch e are 2e, where it comes from, and 2e + 1, where it goes to.
pub fn branch_of(x: usize) -> usize
    ensures { result ≡ x / 2 }
{
    x / 2
}

// Whether end x is where its branch comes from.
pub fn is_from(x: usize) -> bool
    ensures { result ≡ eqb (x % 2) 0 }
{
    x % 2 == 0
}
