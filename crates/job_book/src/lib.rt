// A change, and what a change call tests of it.
#![tactic(auto)]

ghost use Rattle.std.specs.Prelude.{◌≡◌, ◌<◌, IfOk};
ghost use Rattle.sequence.specs.Answers.{first_of, number_of};
ghost use Rattle.network.specs.Layout.{size};
ghost use Rattle.change_table.specs.Table.{field_of};
ghost use Rattle.job_book.specs.Book.{change, own_tests};

use change_table::{field_of, is_kind};
use float64::{raw_limit, within};
use network::layout::{field_size, wide};
use network::{Counts, Field};
use sequence::Refusal;

// A change of a reading: the kind that says which field it is in, its index there, and the value that it takes.
#[derive(Clone, Copy, Debug, PartialEq)]
pub struct Change {
    pub kind: usize,
    pub index: usize,
    pub value: f64,
}

impl Change {
    // Of three words: the first has the kind in its top four bits and the index in the others; then the value's halves, the
    // low one first.
    pub fn of(head: u32, low: u32, high: u32) -> Change
        ensures { result ≡ change head low high }
    {
        Change {
            kind: wide(head / 0x1000_0000),
            index: wide(head % 0x1000_0000),
            value: words::number(u64::from(low) + 0x1_0000_0000 * u64::from(high)),
        }
    }

    // Which reading it sets, by its field and its index, where its value, its kind and its index pass.
    pub fn accept(self, c: Counts) -> Result<(Field, usize), Refusal>
        ensures number { number_of result ≡ first_of (own_tests c self.kind self.index self.value) }
        ensures accepted { IfOk result (λ r. (r.0 ≡ field_of self.kind) × ((r.1 ≡ self.index) × (r.1 < size c r.0))) }
    {
        if !within(self.value, raw_limit()) {
            return Err(Refusal::Reading);
        }
        if !is_kind(self.kind) {
            return Err(Refusal::Kind);
        }
        let field = field_of(self.kind);
        if self.index < field_size(c, field) {
            Ok((field, self.index))
        } else {
            Err(Refusal::Element)
        }
    }
}
