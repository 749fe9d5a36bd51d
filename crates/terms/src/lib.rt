// The terms as small records, each an index and a coefficient, by value or as a lent slice: taken apart into two arrays for the model's own call.
#![tactic(auto)]

ghost use Rattle.std.specs.Prelude.{◌≡◌, ◌≤◌, length};
ghost use Rattle.sequence.specs.Answers.{answered};
ghost use Rattle.model.specs.Calls.{evaluate_call};
ghost use Rattle.terms.specs.Terms.{Apart, network_of, array_call};
ghost use Rattle.terms.specs.Records.{term_at, twelve};

use model::dc;
use network::Lent;
use sequence::{Answer, Refusal};
use words::{FromBytes, number, word32, word64};

#[derive(Clone, Copy)]
pub struct Term {
    pub index: u32,
    pub coefficient: f64,
}

// A record of twelve bytes: the index and then the coefficient.
impl FromBytes for Term {
    const SIZE: usize = 12;

    ghost SIZE = { 12 };

    ghost nth = { term_at };

    ghost some = { twelve };

    fn get(b: &[u8], i: usize) -> Term {
        Term {
            index: word32(b, 12 * i),
            coefficient: number(word64(b, 12 * i + 4)),
        }
    }
}

// The terms' indexes and coefficients, in the fronts of two arrays.
#[derive(Drop)]
struct Columns {
    indexes: [u32; 1024],
    coefficients: [f64; 1024],
}

// The terms taken apart.
fn take_apart(terms: &[Term]) -> Columns
    requires { length terms.now ≤ 1024 }
    ensures { Apart terms.now result }
{
    let mut columns = Columns {
        indexes: [0; 1024],
        coefficients: [0.0; 1024],
    };
    for (i, term) in terms.iter().enumerate() {
        columns.indexes[i] = term.index;
        columns.coefficients[i] = term.coefficient;
    }
    columns
}

// A linear row's value at flows and powers, the terms being a lent slice. A network has at most 1,024 terms.
pub fn evaluate(
    wiring: &[u32],
    readings: &[f64],
    terms: &[Term],
    row: usize,
    f: &[f64],
    pg: &[f64],
    out: &mut [f64],
) -> Answer
    ensures { answered result out.new ≡ evaluate_call (network_of wiring.now readings.now terms.now) row f.now pg.now out.old }
{
    let n = terms.len();
    if 1024 < n {
        return Err(Refusal::Size);
    }
    let columns = take_apart(terms);
    let lent = Lent {
        wiring,
        readings,
        term_index: &columns.indexes[..n],
        term_coefficient: &columns.coefficients[..n],
    };
    dc::evaluate(lent, row, f, pg, out)
}

// The same for the first n terms of an array: a caller makes no reference to a record.
pub fn evaluate_array(
    wiring: &[u32],
    readings: &[f64],
    terms: [Term; 1024],
    n: usize,
    row: usize,
    f: &[f64],
    pg: &[f64],
    out: &mut [f64],
) -> Answer
    ensures { answered result out.new ≡ array_call wiring.now readings.now terms n row f.now pg.now out.old }
{
    let Some(first) = terms.get(..n) else {
        return Err(Refusal::Size);
    };
    evaluate(wiring, readings, first, row, f, pg, out)
}
