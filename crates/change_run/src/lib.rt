// A list of site changes, each on what the last one left.
#![tactic(auto)]

ghost use Rattle.std.specs.Prelude.{◌≡◌, []};
ghost use Rattle.kkt.specs.Slots.Rule.{first_place};
ghost use Rattle.job_book.specs.Book.{given, words, ran_of, run_call};

use change::change;
use job_book::Change;
use sequence::{Answer, Refusal, count, number};

// A list of changes, three words each, one after the other: each one's number and count go to the two
// sheets. `Size` where the list is no whole number of changes, `Short` where a sheet has no word for each.
// The slices stay single, as C lends them: the readings are written; a `Lent` is only read.
pub fn run_changes(
    wiring: &[u32],
    readings: &mut [f64],
    term_index: &[u32],
    term_coefficient: &[f64],
    solution: &[f64],
    rows: &mut [u32],
    cols: &mut [u32],
    values: &mut [f64],
    changes: &[u32],
    numbers: &mut [u32],
    counted: &mut [u32],
) -> Answer
    ensures { ran_of result (words readings.new rows.new cols.new values.new) numbers.new counted.new ≡ run_call (given wiring.now term_index.now term_coefficient.now solution.now) first_place (λ W h. []) (words readings.old rows.old cols.old values.old) changes.now numbers.old counted.old }
{
    let (whole, rest) = changes.as_chunks::<3>();
    if !rest.is_empty() {
        return Err(Refusal::Size);
    }
    let n = whole.len();
    if numbers.len() < n || counted.len() < n {
        return Err(Refusal::Short);
    }
    for (i, [head, low, high]) in whole.iter().enumerate() {
        let answer = change(
            wiring,
            readings,
            term_index,
            term_coefficient,
            solution,
            rows,
            cols,
            values,
            Change::of(*head, *low, *high),
        );
        numbers[i] = number(answer);
        counted[i] = count(answer) as u32;
    }
    Ok(n)
}
