// On typed slices.
ghost use Rattle.std.specs.Prelude.{◌≡◌, []};
ghost use Rattle.kkt.specs.Slots.Rule.{first_place};
ghost use Rattle.job_book.specs.Book.{change, given, words, step, run_call};
ghost use Rattle.capi_change.specs.Told.{told, telling, told_run, telling_run};

use change::change;
use change_run::run_changes;
use decoding::answer::pack_answer;
use job_book::Change;
use sequence::number;

#[unsafe(no_mangle)]
pub extern "C" fn site_change(
    wiring: &[u32],
    readings: &mut [f64],
    term_index: &[u32],
    term_coefficient: &[f64],
    solution: &[f64],
    rows: &mut [u32],
    cols: &mut [u32],
    values: &mut [f64],
    head: u32,
    low: u32,
    high: u32,
) -> u64
    ensures { told result (words readings.new rows.new cols.new values.new) ≡ telling (step (given wiring.now term_index.now term_coefficient.now solution.now) first_place (λ W h. []) (words readings.old rows.old cols.old values.old) (change head low high)) }
{
    pack_answer(change(
        wiring,
        readings,
        term_index,
        term_coefficient,
        solution,
        rows,
        cols,
        values,
        Change::of(head, low, high),
    ))
}

#[unsafe(no_mangle)]
pub extern "C" fn site_run_changes(
    wiring: &[u32],
    readings: &mut [f64],
    term_index: &[u32],
    term_coefficient: &[f64],
    solution: &[f64],
    rows: &mut [u32],
    cols: &mut [u32],
    values: &mut [f64],
    changes: &[u32],
    numbers: &mut [u32],
    counted: &mut [u32],
) -> u32
    ensures { told_run result (words readings.new rows.new cols.new values.new) numbers.new counted.new ≡ telling_run (run_call (given wiring.now term_index.now term_coefficient.now solution.now) first_place (λ W h. []) (words readings.old rows.old cols.old values.old) changes.now numbers.old counted.old) }
{
    number(run_changes(
        wiring,
        readings,
        term_index,
        term_coefficient,
        solution,
        rows,
        cols,
        values,
        changes,
        numbers,
        counted,
    ))
}
