// sens/dc.rs, `parameter_jacobian`: columns one after the other, each through the part that begins at its place.
#![tactic(auto)]

ghost use Rattle.std.specs.Prelude.{◌≡◌, ℕ, ◌*◌, ◌<◌, ◌≤◌, length, get_or};
ghost use Rattle.sequence.specs.Lists.{front};
ghost use Rattle.parameter_column.specs.Columns.{elements};
ghost use Rattle.parameter_column.specs.Moves.{Moves};
ghost use Rattle.parameter_sheet.specs.Sites.{IndexesIn, FlowsIn, touches_in, column_in, jacobian_in};

use kkt_index::{Block, KktIdx};
use network::layout::wide;
use parameter_column::column::Column;
use parameter_column::{
    How, Served, constraint_column, demand_column, limit_column, quadratic_column,
    susceptance_column, switching_column,
};
use solution::PointSite;

// What the columns of a parameter are read from: a point, the duals of its branches' flows, and the system's index.
#[derive(Clone, Copy)]
pub struct Jacobian<'a> {
    pub site: PointSite<'a>,
    pub nu_flow: &'a [f64],
    pub index: KktIdx,
    pub parameter: Served,
    pub ghost same_pieces: { index.pieces ≡ site.point.pieces },
    pub ghost flows: { FlowsIn site nu_flow.now },
    pub ghost indexes: { IndexesIn site index },
}

impl Jacobian<'_> {
    // What the parameter's element i moves, on a blank column.
    fn mark_column(&self, i: usize, column: &mut Column<'_>)
        requires same { (column.old.counts ≡ self.now.site.point.grid.plan.counts) × (column.old.index ≡ self.now.index) }
        requires i_bound { i < elements self.now.site.point.grid.plan.counts self.now.parameter }
        ensures { Moves (touches_in self.now.site self.now.parameter i) column.old column.new }
    {
        let point = &self.site.point;
        match self.parameter {
            Served::Demand => demand_column(point, i, column),
            Served::CostQuadratic => quadratic_column(point.sheet, i, column),
            Served::CostLinear => column.touch(Block::Pg, i, How::Put, 1.0),
            Served::LineLimit => limit_column(point.sheet, i, column),
            Served::BranchSusceptance => susceptance_column(point, i, self.nu_flow[i], column),
            Served::Switching => switching_column(point, i, self.nu_flow[i], column),
            Served::ConstraintLimit => constraint_column(&self.site, i, column),
        }
    }

    // The column of the parameter's element i, which is as long as the system.
    fn fill_column(&self, i: usize, words: &mut [f64])
        requires { (i < elements self.now.site.point.grid.plan.counts self.now.parameter) × (length words.old ≡ self.now.index.dim) }
        ensures { words.new ≡ column_in self.now.site self.now.parameter i }
    {
        words.fill(0.0);
        let mut column = Column {
            counts: self.site.point.grid.plan.counts,
            index: self.index,
            words,
        };
        self.mark_column(i, &mut column);
    }

    // The columns of the listed elements, one after the other.
    pub fn fill_sheet(&self, columns: &[u32], sheet: &mut [f64])
        requires by_index { (t : ℕ) → t < length columns.now → get_or columns.now t 0 < elements self.now.site.point.grid.plan.counts self.now.parameter }
        requires dim_in_bounds { length columns.now * self.now.index.dim ≤ length sheet.old }
        ensures { sheet.new ≡ front (jacobian_in self.now.site self.now.parameter columns.now) sheet.old }
    {
        // By place: of a sheet that was written in chunks a proof would know the length alone.
        let mut at = 0;
        for element in columns {
            let end = at + self.index.dim;
            self.fill_column(wide(*element), &mut sheet[at..end]);
            at = end;
        }
    }
}
