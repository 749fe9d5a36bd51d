// A solution sheet: where each word stands, by name.
#![tactic(auto)]

ghost use Rattle.std.specs.Prelude.{◌≡◌, ◌+◌, ◌≤◌, ◌<◌, cond, eqb};
ghost use Rattle.network.specs.Layout.{Few, WiringLaid};
ghost use Rattle.network.specs.Numbers.{Termed};
ghost use Rattle.solution.specs.Sheet.{pieces, size, entry_start, solved, SheetLaid};

use network::layout::word;
use network::{Counts, Grid, Part, Site};

// The sheet's entries, in the paper's order.
#[derive(Clone, Copy, PartialEq, Eq, Debug)]
pub enum Entry {
    Va,
    Pg,
    Flow,
    Psh,
    NuBal,
    LamUb,
    LamLb,
    RhoUb,
    RhoLb,
    MuUb,
    MuLb,
    GammaUb,
    GammaLb,
    Epigraph,
    SegmentDual,
    LinearDual,
    LinearValue,
    Objective,
}

impl Entry {
    // Every entry, in the sheet's order.
    pub const ALL: &'static [Entry] = &[
        Entry::Va,
        Entry::Pg,
        Entry::Flow,
        Entry::Psh,
        Entry::NuBal,
        Entry::LamUb,
        Entry::LamLb,
        Entry::RhoUb,
        Entry::RhoLb,
        Entry::MuUb,
        Entry::MuLb,
        Entry::GammaUb,
        Entry::GammaLb,
        Entry::Epigraph,
        Entry::SegmentDual,
        Entry::LinearDual,
        Entry::LinearValue,
        Entry::Objective,
    ];
}

// One more, for a piecewise generator.
pub fn next_piece(count: usize, segments: usize) -> usize
    requires { count ≤ 256 }
    ensures { result ≡ count + cond (eqb segments 0) 0 1 }
{
    if segments == 0 {
        return count;
    }
    count + 1
}

// The number of piecewise generators.
// It asks for the wiring alone: a plan asks for the readings too, and a `Wiring` would be made for the call.
pub fn piece_count(wiring: &[u32], c: Counts) -> usize
    requires { WiringLaid c wiring.now }
    ensures { (result ≡ pieces c wiring.now) × (result ≤ c.generators) }
{
    let mut count = 0;
    let to = c.generators;
    for j in 0..to {
        count = next_piece(count, word(wiring, c, Part::Segments, j));
    }
    count
}

pub fn entry_size(c: Counts, p: usize, e: Entry) -> usize
    ensures { result ≡ size c p e }
{
    match e {
        Entry::Va | Entry::Psh | Entry::NuBal | Entry::MuUb | Entry::MuLb => c.buses,
        Entry::Pg | Entry::RhoUb | Entry::RhoLb => c.generators,
        Entry::Flow | Entry::LamUb | Entry::LamLb | Entry::GammaUb | Entry::GammaLb => c.branches,
        Entry::Epigraph => p,
        Entry::SegmentDual => c.segments,
        Entry::LinearDual | Entry::LinearValue => c.rows,
        Entry::Objective => 1,
    }
}

pub fn entry_start(c: Counts, p: usize, e: Entry) -> usize
    requires few { Few c }
    requires p_le_generators { p ≤ c.generators }
    ensures { result ≡ entry_start c p e }
{
    let n = c.buses;
    let m = c.branches;
    let k = c.generators;
    let s = c.segments;
    let q = c.rows;
    match e {
        Entry::Va => 0,
        Entry::Pg => n,
        Entry::Flow => n + k,
        Entry::Psh => n + k + m,
        Entry::NuBal => 2 * n + k + m,
        Entry::LamUb => 3 * n + k + m,
        Entry::LamLb => 3 * n + k + 2 * m,
        Entry::RhoUb => 3 * n + k + 3 * m,
        Entry::RhoLb => 3 * n + 2 * k + 3 * m,
        Entry::MuUb => 3 * n + 3 * k + 3 * m,
        Entry::MuLb => 4 * n + 3 * k + 3 * m,
        Entry::GammaUb => 5 * n + 3 * k + 3 * m,
        Entry::GammaLb => 5 * n + 3 * k + 4 * m,
        Entry::Epigraph => 5 * n + 3 * k + 5 * m,
        Entry::SegmentDual => 5 * n + 3 * k + 5 * m + p,
        Entry::LinearDual => 5 * n + 3 * k + 5 * m + p + s,
        Entry::LinearValue => 5 * n + 3 * k + 5 * m + p + s + q,
        Entry::Objective => 5 * n + 3 * k + 5 * m + p + s + 2 * q,
    }
}

// Word i of an entry.
// It asks for the sheet alone: an operating point would ask for a grid too, and a struct of sheet, counts and pieces would be
// made of a point's fields for each call.
pub fn solved_at(sheet: &[f64], c: Counts, p: usize, e: Entry, i: usize) -> f64
    requires sheet_laid { SheetLaid c p sheet.now }
    requires i_bound { i < size c p e }
    ensures { result ≡ solved c p sheet.now e i }
{
    let at = entry_start(c, p, e) + i;
    sheet[at]
}

// A network's grid with a solution sheet that is as long as its counts and its piecewise generators say.
#[derive(Clone, Copy)]
pub struct OperatingPoint<'a> {
    pub grid: Grid<'a>,
    pub pieces: usize,
    pub sheet: &'a [f64],
    pub ghost sheet_laid: { SheetLaid grid.plan.counts pieces sheet.now },
}

// An operating point with the terms of its linear rows.
#[derive(Clone, Copy)]
pub struct PointSite<'a> {
    pub point: OperatingPoint<'a>,
    pub term_index: &'a [u32],
    pub term_coefficient: &'a [f64],
    pub ghost termed: { Termed point.grid.plan.counts point.grid.plan.wiring.now term_index.now term_coefficient.now },
}

// A network with a solution sheet that is as long as the network says.
#[derive(Clone, Copy)]
pub struct SolvedSite<'a> {
    pub site: Site<'a>,
    pub sheet: &'a [f64],
    pub ghost sheet_laid: { SheetLaid site.grid.plan.counts (pieces site.grid.plan.counts site.grid.plan.wiring.now) sheet.now },
}

impl OperatingPoint<'_> {
    // Word i of an entry.
    pub fn value(&self, e: Entry, i: usize) -> f64
        requires { i < size self.now.grid.plan.counts self.now.pieces e }
        ensures { result ≡ solved self.now.grid.plan.counts self.now.pieces self.now.sheet.now e i }
    {
        solved_at(self.sheet, self.grid.plan.counts, self.pieces, e, i)
    }
}
