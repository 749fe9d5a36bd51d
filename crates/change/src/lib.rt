// Site changes: one reading set, and the whole list for the network as it then stands.
#![tactic(auto)]

ghost use Rattle.std.specs.Prelude.{◌≡◌, [], ◌<◌, length, set};
ghost use Rattle.sequence.specs.Answers.{count_of};
ghost use Rattle.network.specs.Layout.{Few, ReadingsLaid, size, place, readings_length};
ghost use Rattle.network.specs.Numbers.{Wired, Termed};
ghost use Rattle.solution.specs.Sheet.{pieces, SheetLaid};
ghost use Rattle.kkt.specs.Matrix.{kkt_matrix_list};
ghost use Rattle.kkt.specs.Slots.Rule.{first_place};
ghost use Rattle.job_book.specs.Book.{given, words, outcome_of, step, made_at};

use job_book::Change;
use network::layout::field_start;
use network::{Counts, Field, Grid, Lent, Plan, Site};
use sens_dc::lay_kkt;
use sequence::Answer;
use solution::SolvedSite;
use solution_check::accept_solution;

// A network with its solution sheet, but for its readings.
#[derive(Clone, Copy)]
struct Fixed<'a> {
    counts: Counts,
    wiring: &'a [u32],
    term_index: &'a [u32],
    term_coefficient: &'a [f64],
    solution: &'a [f64],
    ghost wired: { Wired counts wiring.now },
    ghost termed: { Termed counts wiring.now term_index.now term_coefficient.now },
    ghost sheet_laid: { SheetLaid counts (pieces counts wiring.now) solution.now },
}

// Where a reading stands.
fn place_of(c: Counts, field: Field, index: usize) -> usize
    requires few { Few c }
    requires index_bound { index < size c field }
    ensures value { result ≡ place c field index }
    ensures inside { result < readings_length c }
{
    field_start(c, field) + index
}

impl<'a> Fixed<'a> {
    // The network with these readings, and its sheet.
    fn with<'b>(&self, readings: &'b [f64]) -> SolvedSite<'b>
    where
        'a: 'b,
        requires { ReadingsLaid self.now.counts readings.now }
        ensures counts { result.site.grid.plan.counts ≡ self.now.counts }
        ensures wiring { result.site.grid.plan.wiring.now ≡ self.now.wiring.now }
        ensures readings { result.site.grid.plan.readings.now ≡ readings.now }
        ensures term_index { result.site.term_index.now ≡ self.now.term_index.now }
        ensures term_coefficient { result.site.term_coefficient.now ≡ self.now.term_coefficient.now }
        ensures sheet { result.sheet.now ≡ self.now.solution.now }
    {
        let plan = Plan {
            counts: self.counts,
            wiring: self.wiring,
            readings,
        };
        let site = Site {
            grid: Grid { plan },
            term_index: self.term_index,
            term_coefficient: self.term_coefficient,
        };
        SolvedSite {
            site,
            sheet: self.solution,
        }
    }

    // The change made and the list laid; where the list doesn't fit, the old value is put back.
    // The readings and the sheets stay single, as C lends them: in a struct the old words would have to be told apart from
    // the new ones field by field.
    fn make(
        &self,
        at: usize,
        value: f64,
        readings: &mut [f64],
        rows: &mut [u32],
        cols: &mut [u32],
        values: &mut [f64],
    ) -> Answer
        requires readings_laid { ReadingsLaid self.now.counts readings.old }
        requires at_in_bounds { at < length readings.old }
        ensures values_after { outcome_of result (words readings.new rows.new cols.new values.new) ≡ made_at (kkt_matrix_list first_place self.now.counts self.now.wiring.now (set readings.old at value) self.now.term_index.now self.now.term_coefficient.now self.now.solution.now) (set readings.old at value) (words readings.old rows.old cols.old values.old) }
        ensures few { count_of result < 0x1_0000_0000 }
    {
        let old = readings[at];
        readings[at] = value;
        let answer = lay_kkt(&self.with(readings), rows, cols, values);
        if answer.is_err() {
            readings[at] = old;
        }
        answer
    }
}

// One change of a network with its solution sheet: where it is accepted the reading takes the new value and the list
// for the network as it then stands fills the sheets; where it is refused no word moves.
// The slices stay single, as C lends them: the readings are written; a `Lent` is only read.
pub fn change(
    wiring: &[u32],
    readings: &mut [f64],
    term_index: &[u32],
    term_coefficient: &[f64],
    solution: &[f64],
    rows: &mut [u32],
    cols: &mut [u32],
    values: &mut [f64],
    asked: Change,
) -> Answer
    ensures values_after { outcome_of result (words readings.new rows.new cols.new values.new) ≡ step (given wiring.now term_index.now term_coefficient.now solution.now) first_place (λ W h. []) (words readings.old rows.old cols.old values.old) asked }
    ensures few { count_of result < 0x1_0000_0000 }
{
    let lent = Lent {
        wiring,
        readings,
        term_index,
        term_coefficient,
    };
    let counts = accept_solution(lent, solution, false)?
        .site
        .grid
        .plan
        .counts;
    let (field, index) = asked.accept(counts)?;
    let at = place_of(counts, field, index);
    let fixed = Fixed {
        counts,
        wiring,
        term_index,
        term_coefficient,
        solution,
    };
    fixed.make(at, asked.value, readings, rows, cols, values)
}
