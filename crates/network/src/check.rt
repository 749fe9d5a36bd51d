// Numbers 1 to 3 of a network, in the paper's order.
ghost use Rattle.std.specs.Prelude.{◌≡◌, true, false, ◌&&◌, ◌+◌, ◌<◌, ◌≤◌, T, ltb, length, get_or, IfOk};
ghost use Rattle.std.specs.Float.Ieee.Positive.{positive};
ghost use Rattle.sequence.specs.Lists.{before, every};
ghost use Rattle.float64.specs.Values.{within, raw_limit};
ghost use Rattle.sequence.specs.Answers.{first_of, number_of};
ghost use Rattle.network.specs.Layout.{Few, ReadingsLaid, row_terms, term_start, fields, segments_at};
ghost use Rattle.network.specs.Numbers.{few, lengths_hold, sums_hold, sizes_hold, limited, limited_at, part_limit, part_holds, terms_hold, wiring_holds, field_holds, all_within, readings_hold, network_tests, network_number, flow_terms_hold, generation_terms_hold};
ghost use Rattle.network.specs.Sites.{network_in, SiteOf};

use crate::layout::{counts, part_size, wide};
use crate::{Counts, Grid, Lent, Part, Plan, Site, Wiring};
use float64::{base_high, base_low, in_range, raw_limit, within};
use sequence::Refusal;

// Whether no count is above its limit.
fn few_counts(c: Counts) -> bool
    ensures { result ≡ few c }
{
    if c.buses > 256 {
        return false;
    }
    if c.branches > 512 {
        return false;
    }
    if c.generators > 256 {
        return false;
    }
    if c.references > 16 {
        return false;
    }
    if c.segments > 1024 {
        return false;
    }
    if c.rows > 64 {
        return false;
    }
    c.terms <= 1024
}

// What each word of a part with a limit is below.
fn part_limit(c: Counts, p: Part) -> usize
    ensures { result ≡ part_limit c p }
{
    match p {
        Part::BrFrom => c.buses,
        Part::BrTo => c.buses,
        Part::GenBus => c.buses,
        Part::Segments => 0,
        Part::References => c.buses,
        Part::GeneratorFlags => 2,
        Part::ThermalFlags => 2,
        Part::AngleFlags => 2,
        Part::Masks => 4,
        Part::FlowTerms => 0,
        Part::GenerationTerms => 0,
    }
}

// The parts with a limit, in order.
const LIMITED: [Part; 8] = [
    Part::BrFrom,
    Part::BrTo,
    Part::GenBus,
    Part::References,
    Part::GeneratorFlags,
    Part::ThermalFlags,
    Part::AngleFlags,
    Part::Masks,
];

// Whether each of some indexes is below a limit.
fn indexes_below(term_index: &[u32], at: usize, count: usize, limit: usize) -> bool
    requires { at + count ≤ length term_index.now }
    ensures { result ≡ every (λ t. ltb (get_or term_index.now (at + t) 0) limit) count }
{
    // `all` over the slice was tried: two more instructions at each word.
    for t in 0..count {
        if limit <= wide(term_index[at + t]) {
            return false;
        }
    }
    true
}

// Whether x is a raw reading: finite, and of magnitude at most 10^12.
pub fn is_raw(x: f64) -> bool
    ensures { result ≡ within raw_limit x }
{
    within(x, raw_limit())
}

// Whether each word is finite and of magnitude at most a limit. Every word is tested: a loop that ends at the first one
// outside takes a quarter longer. It stays a function of its own, whose loop is aligned: inside a caller the loop can
// fall where its closing jump crosses 32 bytes, and on some processors it then takes half as long again.
#[inline(never)]
pub fn all_within(xs: &[f64], limit: f64) -> bool
    requires { T (positive limit) }
    ensures { result ≡ all_within limit xs.now }
{
    let mut ok = true;
    for i in 0..xs.len() {
        ok &= within(xs[i], limit);
    }
    ok
}

// Whether every field's readings are within its limits: base_mva, which stands first, and then all the others.
// It asks for the readings alone: a plan would ask for the wiring too.
fn fields_hold(readings: &[f64], c: Counts) -> bool
    requires { ReadingsLaid c readings.now }
    ensures { result ≡ every (field_holds c readings.now) (length fields) }
{
    if !in_range(readings[0], base_low(), base_high()) {
        return false;
    }
    all_within(&readings[1..], raw_limit())
}

impl Wiring<'_> {
    // How many segments the generators have. Each word is any u32, so the sum is made in 64 bits.
    fn segment_sum(&self) -> usize
        ensures { result ≡ before (segments_at self.now.counts self.now.words.now) self.now.counts.generators }
    {
        let mut sum = 0;
        let to = self.counts.generators;
        for j in 0..to {
            sum += self.word(Part::Segments, j);
        }
        sum
    }

    // How many terms a row has.
    pub fn row_terms(&self, q: usize) -> usize
        requires { q < self.now.counts.rows }
        ensures { (result ≡ row_terms self.now.counts self.now.words.now q) × (result < 0x2_0000_0000) }
    {
        self.word(Part::FlowTerms, q) + self.word(Part::GenerationTerms, q)
    }

    // How many terms the rows have.
    fn term_sum(&self) -> usize
        ensures { result ≡ before (row_terms self.now.counts self.now.words.now) self.now.counts.rows }
    {
        let mut sum = 0;
        let to = self.counts.rows;
        for q in 0..to {
            sum += self.row_terms(q);
        }
        sum
    }

    // Whether segments and term counts sum to what the counts say.
    fn sums_hold(&self) -> bool
        ensures { result ≡ sums_hold self.now.counts self.now.words.now }
    {
        if self.segment_sum() != self.counts.segments {
            return false;
        }
        self.term_sum() == self.counts.terms
    }

    // Whether each word of a part is below the part's limit.
    fn part_holds(&self, p: Part) -> bool
        ensures { result ≡ part_holds self.now.counts self.now.words.now p }
    {
        let limit = part_limit(self.counts, p);
        let to = part_size(self.counts, p);
        // `all` over the part's words was tried: two more instructions at each word.
        for i in 0..to {
            if limit <= self.word(p, i) {
                return false;
            }
        }
        true
    }

    fn parts_hold(&self) -> bool
        ensures { result ≡ every (λ k. part_holds self.now.counts self.now.words.now (limited_at k)) (length limited) }
    {
        LIMITED.iter().all(|&p| self.part_holds(p))
    }

    // Whether the terms of a row name branches and generators. The row's terms begin at `at`.
    fn row_holds(&self, term_index: &[u32], q: usize, at: usize) -> bool
        requires { (q < self.now.counts.rows) × (at ≡ term_start self.now.counts self.now.words.now q) × (at + row_terms self.now.counts self.now.words.now q ≤ length term_index.now) }
        ensures { result ≡ (flow_terms_hold self.now.counts self.now.words.now term_index.now q && generation_terms_hold self.now.counts self.now.words.now term_index.now q) }
    {
        let flow = self.word(Part::FlowTerms, q);
        if !indexes_below(term_index, at, flow, self.counts.branches) {
            return false;
        }
        let generation = self.word(Part::GenerationTerms, q);
        indexes_below(term_index, at + flow, generation, self.counts.generators)
    }

    fn terms_hold(&self, term_index: &[u32]) -> bool
        requires { before (row_terms self.now.counts self.now.words.now) self.now.counts.rows ≤ length term_index.now }
        ensures { result ≡ terms_hold self.now.counts self.now.words.now term_index.now }
    {
        let mut at = 0;
        let to = self.counts.rows;
        for q in 0..to {
            if !self.row_holds(term_index, q, at) {
                return false;
            }
            at += self.row_terms(q);
        }
        true
    }

    // Number 2's conditions.
    pub fn wiring_holds(&self, term_index: &[u32]) -> bool
        requires { before (row_terms self.now.counts self.now.words.now) self.now.counts.rows ≤ length term_index.now }
        ensures { result ≡ wiring_holds self.now.counts self.now.words.now term_index.now }
    {
        if self.words[7] > 1 {
            return false;
        }
        if self.words[8] > 2 {
            return false;
        }
        if !self.parts_hold() {
            return false;
        }
        self.terms_hold(term_index)
    }
}

impl<'a> Lent<'a> {
    // Whether the slices have the lengths that the counts give.
    fn lengths_hold(&self, c: Counts) -> bool
        requires { Few c }
        ensures { result ≡ lengths_hold c (network_in self.now) }
    {
        let m = c.branches;
        let k = c.generators;
        if self.wiring.len() != 9 + 4 * m + 3 * k + c.references + 3 * c.rows {
            return false;
        }
        if self.readings.len() != 1 + 7 * m + 5 * k + 4 * c.buses + 2 * c.segments + 2 * c.rows {
            return false;
        }
        if self.term_index.len() != c.terms {
            return false;
        }
        self.term_coefficient.len() == c.terms
    }

    // Number 1's conditions.
    pub fn sizes_hold(&self) -> bool
        ensures { result ≡ sizes_hold (network_in self.now) }
    {
        if self.wiring.len() < 9 {
            return false;
        }
        let c = counts(self.wiring);
        if !few_counts(c) {
            return false;
        }
        if !self.lengths_hold(c) {
            return false;
        }
        let wiring = Wiring {
            counts: c,
            words: self.wiring,
        };
        wiring.sums_hold()
    }

    // Number 3's conditions.
    pub fn readings_hold(&self, c: Counts) -> bool
        requires { ReadingsLaid c self.now.readings.now }
        ensures { result ≡ readings_hold c (network_in self.now) }
    {
        if !fields_hold(self.readings, c) {
            return false;
        }
        all_within(self.term_coefficient, raw_limit())
    }

    // The network, where none of the numbers 1 to 3 is due: of them a call's own sizes and values are tested with the
    // network's, and say whether they hold: `sizes` and `values` are what it found, not a choice of what is done.
    pub fn accept_with(self, sizes: bool, values: bool) -> Result<Site<'a>, Refusal>
        ensures number { number_of result ≡ first_of (network_tests (network_in self.entry) sizes values) }
        ensures accepted { IfOk result (SiteOf self.entry) }
    {
        if !self.sizes_hold() {
            return Err(Refusal::Size);
        }
        if !sizes {
            return Err(Refusal::Size);
        }
        let counts = counts(self.wiring);
        let wiring = Wiring {
            counts,
            words: self.wiring,
        };
        if !wiring.wiring_holds(self.term_index) {
            return Err(Refusal::Wiring);
        }
        if !self.readings_hold(counts) {
            return Err(Refusal::Reading);
        }
        if values {
            let plan = Plan {
                counts,
                wiring: self.wiring,
                readings: self.readings,
            };
            let grid = Grid { plan };
            Ok(Site {
                grid,
                term_index: self.term_index,
                term_coefficient: self.term_coefficient,
            })
        } else {
            Err(Refusal::Reading)
        }
    }

    // The same for a call with no sizes and values of its own.
    #[tactic(auto, unfolding(crate::specs::Numbers::network_number))]
    pub fn accept(self) -> Result<Site<'a>, Refusal>
        ensures number { number_of result ≡ network_number (network_in self.entry) }
        ensures accepted { IfOk result (SiteOf self.entry) }
    {
        self.accept_with(true, true)
    }
}
