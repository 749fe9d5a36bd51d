// Which cells of the matrix a change of a reading may move.
#![tactic(auto, unfolding(change_table::specs::Table::among))]

ghost use Rattle.std.specs.Prelude.{◌≡◌, ◌+◌, ◌<◌, ◌++◌, eqb};
ghost use Rattle.network.specs.Layout.{size};
ghost use Rattle.network.specs.declared.Field.TheVariants.{Sw, Susceptance};
ghost use Rattle.kkt_index.specs.Index.{start_in, Narrow};
ghost use Rattle.change_table.specs.Table.{cells_of, cells_at, among, diagonal, against, both_ways, balance_cells};

use kkt_index::{Block, KktIdx};
use network::layout::wide;
use network::{Field, Part};

mod places;

pub use places::Places;

// A row or a column: an index of a block.
type Place = (Block, usize);

// A row and a column.
type Cell = (Place, Place);

// The row and the column of the same index.
fn diagonal(b: Block, i: usize) -> Cell
    ensures { result ≡ ((b, i), (b, i)) }
{
    ((b, i), (b, i))
}

// Whether a row or a column of the matrix stands at a place.
fn stands_at(x: KktIdx, place: Place, at: u32) -> bool
    requires { Narrow x }
    ensures { result ≡ eqb at (start_in x place.0 + place.1) }
{
    let (block, i) = place;
    wide(at).checked_sub(x.start(block)) == Some(i)
}

// Whether a triplet of this row and column is in one of some cells.
fn is_among(x: KktIdx, cells: &[Cell], row: u32, col: u32) -> bool
    requires { Narrow x }
    ensures { result ≡ among (row, col) (cells_at (start_in x) cells.now) }
{
    cells
        .iter()
        .any(|&(r, c)| stands_at(x, r, row) && stands_at(x, c, col))
}

impl Places<'_> {
    // Row b+e against the angles of branch e's ends.
    fn against(&self, b: Block, e: usize) -> [Cell; 2]
        requires { e < self.now.wiring.counts.branches }
        ensures { result ≡ against self.now.wiring.counts self.now.wiring.words.now b e }
    {
        let from = self.wiring.word(Part::BrFrom, e);
        let to = self.wiring.word(Part::BrTo, e);
        [((b, e), (Block::Va, from)), ((b, e), (Block::Va, to))]
    }

    // The same, and the angles' rows against column b+e.
    fn both_ways(&self, b: Block, e: usize) -> [Cell; 4]
        requires { e < self.now.wiring.counts.branches }
        ensures { result ≡ both_ways self.now.wiring.counts self.now.wiring.words.now b e }
    {
        let from = self.wiring.word(Part::BrFrom, e);
        let to = self.wiring.word(Part::BrTo, e);
        [
            ((b, e), (Block::Va, from)),
            ((b, e), (Block::Va, to)),
            ((Block::Va, from), (b, e)),
            ((Block::Va, to), (b, e)),
        ]
    }

    // The cells where the balances of branch e's ends meet their angles.
    fn balance_cells(&self, e: usize) -> [Cell; 8]
        requires { e < self.now.wiring.counts.branches }
        ensures { result ≡ balance_cells self.now.wiring.counts self.now.wiring.words.now e }
    {
        let from = self.wiring.word(Part::BrFrom, e);
        let to = self.wiring.word(Part::BrTo, e);
        [
            ((Block::NuBal, from), (Block::Va, from)),
            ((Block::NuBal, from), (Block::Va, to)),
            ((Block::NuBal, to), (Block::Va, from)),
            ((Block::NuBal, to), (Block::Va, to)),
            ((Block::Va, from), (Block::NuBal, from)),
            ((Block::Va, from), (Block::NuBal, to)),
            ((Block::Va, to), (Block::NuBal, from)),
            ((Block::Va, to), (Block::NuBal, to)),
        ]
    }

    // Whether a triplet is in a cell of a branch's susceptance.
    fn is_of_susceptance(&self, e: usize, row: u32, col: u32) -> bool
        requires { e < self.now.wiring.counts.branches }
        ensures { result ≡ among (row, col) (cells_at (start_in self.now.index) (cells_of self.now.wiring.counts self.now.wiring.words.now Susceptance e)) }
    {
        is_among(self.index, &self.both_ways(Block::NuFlow, e), row, col)
            || is_among(self.index, &self.balance_cells(e), row, col)
    }

    // Whether a triplet is in a cell of a branch's switch.
    fn is_of_sw(&self, e: usize, row: u32, col: u32) -> bool
        requires { e < self.now.wiring.counts.branches }
        ensures { result ≡ among (row, col) (cells_at (start_in self.now.index) (cells_of self.now.wiring.counts self.now.wiring.words.now Sw e)) }
    {
        is_among(self.index, &self.both_ways(Block::GammaLb, e), row, col)
            || is_among(self.index, &self.both_ways(Block::GammaUb, e), row, col)
            || is_among(self.index, &self.both_ways(Block::NuFlow, e), row, col)
            || is_among(
                self.index,
                &[diagonal(Block::GammaLb, e), diagonal(Block::GammaUb, e)],
                row,
                col,
            )
            || is_among(self.index, &self.balance_cells(e), row, col)
    }

    // Whether a triplet is in a cell of an angle limit, whose dual is b+e.
    fn is_of_angle(&self, b: Block, e: usize, row: u32, col: u32) -> bool
        requires { e < self.now.wiring.counts.branches }
        ensures { result ≡ among (row, col) (cells_at (start_in self.now.index) (against self.now.wiring.counts self.now.wiring.words.now b e ++ diagonal b e)) }
    {
        is_among(self.index, &self.against(b, e), row, col)
            || is_among(self.index, &[diagonal(b, e)], row, col)
    }

    // Whether a triplet of this row and column is in a cell that a change of a reading may move. The fields' arms are a
    // table of places: nothing is compared with the field.
    pub fn is_named(&self, f: Field, i: usize, row: u32, col: u32) -> bool
        requires { i < size self.now.wiring.counts f }
        ensures { result ≡ among (row, col) (cells_at (start_in self.now.index) (cells_of self.now.wiring.counts self.now.wiring.words.now f i)) }
    {
        match f {
            Field::Demand => is_among(
                self.index,
                &[
                    ((Block::MuLb, i), (Block::Psh, i)),
                    ((Block::MuUb, i), (Block::Psh, i)),
                    diagonal(Block::MuLb, i),
                    diagonal(Block::MuUb, i),
                ],
                row,
                col,
            ),
            Field::Fmax => is_among(
                self.index,
                &[diagonal(Block::LamLb, i), diagonal(Block::LamUb, i)],
                row,
                col,
            ),
            Field::Sw => self.is_of_sw(i, row, col),
            Field::Susceptance => self.is_of_susceptance(i, row, col),
            Field::Angmin => self.is_of_angle(Block::GammaLb, i, row, col),
            Field::Angmax => self.is_of_angle(Block::GammaUb, i, row, col),
            Field::Cq => is_among(self.index, &[diagonal(Block::Pg, i)], row, col),
            Field::Gmin => is_among(self.index, &[diagonal(Block::RhoLb, i)], row, col),
            Field::Gmax => is_among(self.index, &[diagonal(Block::RhoUb, i)], row, col),
            // No change sets the others.
            Field::BaseMva
            | Field::Shift
            | Field::FlowOffset
            | Field::Cl
            | Field::Cc
            | Field::CShed
            | Field::ShuntConductance
            | Field::HvdcInjection
            | Field::Slopes
            | Field::Intercepts
            | Field::UpperMw
            | Field::LowerMw => false,
        }
    }
}
