// Triplets that are put, one after the other, into three lent sheets.
ghost use Rattle.std.specs.Prelude.{◌+◌, ◌<◌, ◌≤◌};
ghost use Rattle.sequence.specs.Sheets.{emit};
ghost use Rattle.sequence.specs.Sinks.{Gains};

use crate::{Sink, Triplet};

impl Sink<'_> {
    // A triplet, or none: counted, and stored where its place is below the limit too. One walk is so both the counting
    // pass (limit 0) and the writing pass.
    pub fn put(&mut self, triplet: Option<Triplet>)
        requires { self.old.count < 0x4000_0000 }
        ensures puts { Gains (emit triplet) self.old self.new }
        ensures most { self.new.count ≤ self.old.count + 1 }
    {
        let Some(t) = triplet else {
            return;
        };
        if self.count < self.limit {
            self.rows[self.count] = t.row;
            self.cols[self.count] = t.col;
            self.values[self.count] = t.value;
        }
        self.count += 1;
    }
}
