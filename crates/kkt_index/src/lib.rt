// sens/dc.rs, `KktIdx`: where the rows and columns of the KKT matrix stand.
#![tactic(auto)]

ghost use Rattle.std.specs.Prelude.{◌≡◌, ◌*◌, ◌≤◌};
ghost use Rattle.float64.specs.Values.{tolerance};
ghost use Rattle.network.specs.Layout.{Few};
ghost use Rattle.solution.specs.Sheet.{pieces};
ghost use Rattle.kkt_index.specs.Index.{rows_of, linear_row_count, Indexed, Narrow, start_in};

use model::RowLimits;
use model::rows::row_limits;
use network::{Counts, Plan};
use solution::piece_count;

// The blocks of the matrix's rows and columns, in order.
#[derive(Clone, Copy, PartialEq, Eq, Debug)]
pub enum Block {
    Va,
    Pg,
    Flow,
    Psh,
    Cost,
    LamLb,
    LamUb,
    GammaLb,
    GammaUb,
    RhoLb,
    RhoUb,
    MuLb,
    MuUb,
    Segments,
    Linear,
    NuBal,
    NuFlow,
    Eta,
}

// Where each block starts, how many rows and columns there are, and the two counts that the wiring
// does not state: piecewise generators, and rows of the linear block.
#[derive(Clone, Copy)]
pub struct KktIdx {
    pub va: usize,
    pub pg: usize,
    pub flow: usize,
    pub psh: usize,
    pub cost: usize,
    pub lam_lb: usize,
    pub lam_ub: usize,
    pub gamma_lb: usize,
    pub gamma_ub: usize,
    pub rho_lb: usize,
    pub rho_ub: usize,
    pub mu_lb: usize,
    pub mu_ub: usize,
    pub segments: usize,
    pub linear: usize,
    pub nu_bal: usize,
    pub nu_flow: usize,
    pub eta: usize,
    pub dim: usize,
    pub pieces: usize,
    pub linear_rows: usize,
}

impl KktIdx {
    // The snap tolerance: 1 divided by 1,000,000, rounded once.
    pub const SNAP_TOL: f64 = 1.0 / 1000000.0;

    // The constant, as a contract cites it.
    pub fn snap_tol() -> f64
        ensures { result ≡ tolerance }
    {
        KktIdx::SNAP_TOL
    }

    // p is the number of piecewise generators, l that of the linear block's rows.
    pub fn new(c: Counts, p: usize, l: usize) -> KktIdx
        requires few { Few c }
        requires p_le_generators { (p ≤ c.generators) × (l ≤ 2 * c.rows) }
        ensures { Indexed c p l result }
    {
        let n = c.buses;
        let m = c.branches;
        let k = c.generators;
        let pg = n;
        let flow = pg + k;
        let psh = flow + m;
        let cost = psh + n;
        let lam_lb = cost + p;
        let lam_ub = lam_lb + m;
        let gamma_lb = lam_ub + m;
        let gamma_ub = gamma_lb + m;
        let rho_lb = gamma_ub + m;
        let rho_ub = rho_lb + k;
        let mu_lb = rho_ub + k;
        let mu_ub = mu_lb + n;
        let segments = mu_ub + n;
        let linear = segments + c.segments;
        let nu_bal = linear + l;
        let nu_flow = nu_bal + n;
        let eta = nu_flow + m;
        KktIdx {
            va: 0,
            pg,
            flow,
            psh,
            cost,
            lam_lb,
            lam_ub,
            gamma_lb,
            gamma_ub,
            rho_lb,
            rho_ub,
            mu_lb,
            mu_ub,
            segments,
            linear,
            nu_bal,
            nu_flow,
            eta,
            dim: eta + c.references,
            pieces: p,
            linear_rows: l,
        }
    }

    // Where everything stands for a plan.
    pub fn of(plan: &Plan<'_>) -> KktIdx
        ensures indexed { Indexed plan.now.counts (pieces plan.now.counts plan.now.wiring.now) (linear_row_count plan.now.counts plan.now.wiring.now plan.now.readings.now) result }
        ensures narrow { Narrow result }
    {
        let counts = plan.counts;
        KktIdx::new(counts, piece_count(plan.wiring, counts), linear_rows(plan))
    }

    // Where a block starts. `Narrow` is a clause: a ghost field speaks of fields, and would name every start.
    pub fn start(self, b: Block) -> usize
        requires { Narrow self }
        ensures { (result ≡ start_in self b) × (result ≤ 0x1_0000) }
    {
        match b {
            Block::Va => self.va,
            Block::Pg => self.pg,
            Block::Flow => self.flow,
            Block::Psh => self.psh,
            Block::Cost => self.cost,
            Block::LamLb => self.lam_lb,
            Block::LamUb => self.lam_ub,
            Block::GammaLb => self.gamma_lb,
            Block::GammaUb => self.gamma_ub,
            Block::RhoLb => self.rho_lb,
            Block::RhoUb => self.rho_ub,
            Block::MuLb => self.mu_lb,
            Block::MuUb => self.mu_ub,
            Block::Segments => self.segments,
            Block::Linear => self.linear,
            Block::NuBal => self.nu_bal,
            Block::NuFlow => self.nu_flow,
            Block::Eta => self.eta,
        }
    }
}

// How many rows of the matrix a linear row has.
pub fn rows_of(limits: RowLimits) -> usize
    ensures { result ≡ rows_of limits }
{
    match limits {
        RowLimits::None => 0,
        RowLimits::Upper(_) | RowLimits::Lower(_) | RowLimits::Equal(_) => 1,
        RowLimits::Both(_, _) => 2,
    }
}

// How many rows of the matrix the linear rows have. One line over its own test, as opf_layout's counts are.
pub fn linear_rows(plan: &Plan<'_>) -> usize
    ensures { (result ≡ linear_row_count plan.now.counts plan.now.wiring.now plan.now.readings.now) × (result ≤ 2 * plan.now.counts.rows) }
{
    (0..plan.counts.rows)
        .map(|q| rows_of(row_limits(plan, q)))
        .sum()
}
