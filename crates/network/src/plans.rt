// The words of a network that is laid out as its counts say, by name.
ghost use Rattle.std.specs.Prelude.{◌≡◌, ◌<◌};
ghost use Rattle.network.specs.Layout.{part_size, wire, row_terms, size, reading};

use crate::layout::{reading, word};
use crate::{Field, Grid, Part, Plan, Wiring};

impl Wiring<'_> {
    // Word i of a part.
    pub fn word(&self, p: Part, i: usize) -> usize
        requires { i < part_size self.now.counts p }
        ensures { (result ≡ wire self.now.counts self.now.words.now p i) × (result < 0x1_0000_0000) }
    {
        word(self.words, self.counts, p, i)
    }
}

impl Plan<'_> {
    // Word i of a part.
    pub fn word(&self, p: Part, i: usize) -> usize
        requires { i < part_size self.now.counts p }
        ensures { (result ≡ wire self.now.counts self.now.wiring.now p i) × (result < 0x1_0000_0000) }
    {
        word(self.wiring, self.counts, p, i)
    }

    // Reading i of a field.
    pub fn reading(&self, f: Field, i: usize) -> f64
        requires { i < size self.now.counts f }
        ensures { result ≡ reading self.now.counts self.now.readings.now f i }
    {
        reading(self.readings, self.counts, f, i)
    }

    // How many terms row q has.
    pub fn row_terms(&self, q: usize) -> usize
        requires { q < self.now.counts.rows }
        ensures { (result ≡ row_terms self.now.counts self.now.wiring.now q) × (result < 0x2_0000_0000) }
    {
        self.word(Part::FlowTerms, q) + self.word(Part::GenerationTerms, q)
    }
}

impl Grid<'_> {
    // Word i of a part.
    pub fn word(&self, p: Part, i: usize) -> usize
        requires { i < part_size self.now.plan.counts p }
        ensures { (result ≡ wire self.now.plan.counts self.now.plan.wiring.now p i) × (result < 0x1_0000_0000) }
    {
        self.plan.word(p, i)
    }

    // Reading i of a field.
    pub fn reading(&self, f: Field, i: usize) -> f64
        requires { i < size self.now.plan.counts f }
        ensures { result ≡ reading self.now.plan.counts self.now.plan.readings.now f i }
    {
        self.plan.reading(f, i)
    }
}
