// Answers by number, triplets into three lent sheets, and chains of equal keys.
#![tactic(auto)]

pub mod laying;
pub mod linking;
pub mod marking;
pub mod putting;

ghost use Rattle.std.specs.Prelude.{◌≡◌};
ghost use Rattle.sequence.specs.Answers.{refusal_number, number_of, count_of};
ghost use Rattle.sequence.specs.Sheets.{held, Fits, room};

pub use linking::push;

// Why a call refuses, in the order in which its tests are made; each has its place in that order as its number.
#[derive(Clone, Copy, Debug, PartialEq, Eq)]
pub enum Refusal {
    // A count above its limit, or a slice of the wrong length.
    Size = 1,
    // An index, a flag or a mask outside its values.
    Wiring = 2,
    // A reading, a coefficient or a weight outside its limits.
    Reading = 3,
    // A kind that is not served.
    Kind = 4,
    // An element past the last.
    Element = 5,
    // A cost asked of a piecewise generator.
    Piecewise = 6,
    // A lent output shorter than the result.
    Short = 7,
}

impl Refusal {
    // The number by which other languages know it.
    pub fn number(self) -> u32
        ensures { result ≡ refusal_number self }
    {
        self as u32
    }
}

// How much a call wrote, or why it refuses.
pub type Answer = Result<usize, Refusal>;

// A call's number: 0, or that of its refusal.
pub fn number(answer: Answer) -> u32
    ensures { result ≡ number_of answer }
{
    match answer {
        Ok(_) => 0,
        Err(refusal) => refusal.number(),
    }
}

// A call's count: how much it wrote, and 0 where it refuses.
pub fn count(answer: Answer) -> usize
    ensures { result ≡ count_of answer }
{
    answer.unwrap_or(0)
}

// An entry of a matrix.
#[derive(Clone, Copy, PartialEq)]
pub struct Triplet {
    pub row: u32,
    pub col: u32,
    pub value: f64,
}

// Three sheets, of which the places below a limit are written, and how many triplets have been put.
#[derive(Drop)]
pub struct Sink<'a> {
    pub rows: &'a mut [u32],
    pub cols: &'a mut [u32],
    pub values: &'a mut [f64],
    pub limit: usize,
    pub count: usize,
    pub ghost room: { Fits limit (held rows cols values count) },
}

// How many triplets the three sheets hold.
pub fn room(rows: &[u32], cols: &[u32], values: &[f64]) -> usize
    ensures { result ≡ room rows.now cols.now values.now }
{
    rows.len().min(cols.len().min(values.len()))
}
