// sens/dc.rs, `operand_selector` as a public call.
#![tactic(auto)]

ghost use Rattle.std.specs.Prelude.{◌≡◌, ◌||◌, ◌+◌, ◌≤◌, length, ltb};
ghost use Rattle.sequence.specs.Lists.{made};
ghost use Rattle.sequence.specs.Answers.{number_of, count_of};
ghost use Rattle.network.specs.Sites.{network_in};
ghost use Rattle.sens_operands.specs.Calls.{served_of, block_of, elements, selection, unit_rows, start_of, fronts, selected, served_laid, selector_call};

use interface::{End, Operand, Power, VoltageKind};
use kkt_index::{Block, KktIdx};
use network::{Counts, Lent, Site};
use sequence::{Answer, Refusal};

// The operands that are served.
#[derive(Clone, Copy, Debug, PartialEq, Eq)]
pub enum Reported {
    Price,
    Dispatch,
    Flow,
    Angle,
}

impl Reported {
    // The block whose rows the operand reads.
    fn block(self) -> Block
        ensures { result ≡ block_of self }
    {
        match self {
            Reported::Price => Block::NuBal,
            Reported::Dispatch => Block::Pg,
            Reported::Flow => Block::Flow,
            Reported::Angle => Block::Va,
        }
    }

    // How many elements the operand has.
    fn elements(self, c: Counts) -> usize
        ensures { result ≡ elements c self }
    {
        match self {
            Reported::Price | Reported::Angle => c.buses,
            Reported::Dispatch => c.generators,
            Reported::Flow => c.branches,
        }
    }
}

// Active price, active dispatch, active flow at the from end and angle are served.
pub fn served_of(o: Operand) -> Option<Reported>
    ensures { result ≡ served_of o }
{
    match o {
        Operand::Price(Power::Active) => Some(Reported::Price),
        Operand::Dispatch(Power::Active) => Some(Reported::Dispatch),
        Operand::Flow {
            power: Power::Active,
            end: End::From,
        } => Some(Reported::Flow),
        Operand::Voltage(VoltageKind::Angle) => Some(Reported::Angle),
        _ => None,
    }
}

// The rows of a block, from its start on.
fn put_rows(rows: &mut [u32], start: usize)
    requires { (start ≤ 0x1_0000) × (length rows.old ≤ 512) }
    ensures { rows.new ≡ made (λ i. start + i) (length rows.old) }
{
    for (i, row) in rows.iter_mut().enumerate() {
        *row = (start + i) as u32;
    }
}

// Where the rows of an operand start.
fn start_of(site: Site<'_>, k: Reported) -> usize
    ensures { (result ≡ start_of site.entry.grid.plan.counts site.entry.grid.plan.wiring.now site.entry.grid.plan.readings.now k) × (result ≤ 0x1_0000) }
{
    KktIdx::of(&site.grid.plan).start(k.block())
}

// Whether one of the four sheets has no room for so many elements.
fn is_short(n: usize, sign: usize, counts: usize, rows: usize, weights: usize) -> bool
    ensures { result ≡ ltb sign 1 || ltb counts n || ltb rows n || ltb weights n }
{
    sign < 1 || counts < n || rows < n || weights < n
}

// The selector of n rows from a start, in front of four sheets that have room: each element has one entry, of weight 1.
// The sheets stay single: a struct of four `&mut` would have each step promise that it keeps the four.
fn put_selector(
    start: usize,
    n: usize,
    sign: &mut [f64],
    counts: &mut [u32],
    rows: &mut [u32],
    weights: &mut [f64],
)
    requires in_bounds { (1 ≤ length sign.old) × (n ≤ length counts.old) × (n ≤ length rows.old) × (n ≤ length weights.old) }
    requires start_bound { (start ≤ 0x1_0000) × (n ≤ 512) }
    ensures { selection sign.new counts.new rows.new weights.new ≡ fronts (unit_rows start n) (selection sign.old counts.old rows.old weights.old) }
{
    sign[0] = 1.0;
    counts[..n].fill(1);
    put_rows(&mut rows[..n], start);
    weights[..n].fill(1.0);
}

// The selector of a served operand, where it has room.
fn lay_selector(
    site: Site<'_>,
    k: Reported,
    sign: &mut [f64],
    counts: &mut [u32],
    rows: &mut [u32],
    weights: &mut [f64],
) -> Answer
    ensures { selected (number_of result) (count_of result) (selection sign.new counts.new rows.new weights.new) ≡ served_laid site.entry.grid.plan.counts site.entry.grid.plan.wiring.now site.entry.grid.plan.readings.now k (selection sign.old counts.old rows.old weights.old) }
{
    let n = k.elements(site.grid.plan.counts);
    if is_short(n, sign.len(), counts.len(), rows.len(), weights.len()) {
        return Err(Refusal::Short);
    }
    put_selector(start_of(site, k), n, sign, counts, rows, weights);
    Ok(n)
}

// For each element of an operand the row of the system that it reads.
pub fn operand_selector(
    lent: Lent<'_>,
    o: Operand,
    sign: &mut [f64],
    entries: &mut [u32],
    rows: &mut [u32],
    weights: &mut [f64],
) -> Answer
    ensures { selected (number_of result) (count_of result) (selection sign.new entries.new rows.new weights.new) ≡ selector_call (network_in lent.entry) o (selection sign.old entries.old rows.old weights.old) }
{
    let site = lent.accept()?;
    let k = served_of(o).ok_or(Refusal::Kind)?;
    lay_selector(site, k, sign, entries, rows, weights)
}
