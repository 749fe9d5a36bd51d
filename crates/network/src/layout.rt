// Where each word of the wiring and each reading stands.
ghost use Rattle.std.specs.Prelude.{◌≡◌, ◌+◌, ◌*◌, ◌<◌, ◌≤◌, length};
ghost use Rattle.network.specs.Layout.{counts_of, Few, WiringLaid, ReadingsLaid, part_size, part_start, wire, size, field_start, reading};

use crate::{Counts, Field, Part};

pub fn wide(x: u32) -> usize
    ensures { (result ≡ x) × (result < 0x1_0000_0000) }
{
    x as usize
}

pub fn counts(wiring: &[u32]) -> Counts
    requires { 9 ≤ length wiring.now }
    ensures { result ≡ counts_of wiring.now }
{
    Counts {
        buses: wide(wiring[0]),
        branches: wide(wiring[1]),
        generators: wide(wiring[2]),
        references: wide(wiring[3]),
        segments: wide(wiring[4]),
        rows: wide(wiring[5]),
        terms: wide(wiring[6]),
    }
}

pub fn part_size(c: Counts, p: Part) -> usize
    ensures { result ≡ part_size c p }
{
    match p {
        Part::BrFrom => c.branches,
        Part::BrTo => c.branches,
        Part::GenBus => c.generators,
        Part::Segments => c.generators,
        Part::References => c.references,
        Part::GeneratorFlags => c.generators,
        Part::ThermalFlags => c.branches,
        Part::AngleFlags => c.branches,
        Part::Masks => c.rows,
        Part::FlowTerms => c.rows,
        Part::GenerationTerms => c.rows,
    }
}

pub fn part_start(c: Counts, p: Part) -> usize
    requires { Few c }
    ensures { result ≡ part_start c p }
{
    let m = c.branches;
    let k = c.generators;
    let r = c.references;
    let q = c.rows;
    match p {
        Part::BrFrom => 9,
        Part::BrTo => 9 + m,
        Part::GenBus => 9 + 2 * m,
        Part::Segments => 9 + 2 * m + k,
        Part::References => 9 + 2 * m + 2 * k,
        Part::GeneratorFlags => 9 + 2 * m + 2 * k + r,
        Part::ThermalFlags => 9 + 2 * m + 3 * k + r,
        Part::AngleFlags => 9 + 3 * m + 3 * k + r,
        Part::Masks => 9 + 4 * m + 3 * k + r,
        Part::FlowTerms => 9 + 4 * m + 3 * k + r + q,
        Part::GenerationTerms => 9 + 4 * m + 3 * k + r + 2 * q,
    }
}

// Word i of a part.
// It stays on slices: `Wiring` and `Plan`, of which one has no readings, read their words by it.
pub fn word(wiring: &[u32], c: Counts, p: Part, i: usize) -> usize
    requires wiring_laid { WiringLaid c wiring.now }
    requires i_bound { i < part_size c p }
    ensures { (result ≡ wire c wiring.now p i) × (result < 0x1_0000_0000) }
{
    let at = part_start(c, p) + i;
    wide(wiring[at])
}

pub fn field_size(c: Counts, f: Field) -> usize
    ensures { result ≡ size c f }
{
    match f {
        Field::BaseMva => 1,
        Field::Susceptance => c.branches,
        Field::Sw => c.branches,
        Field::Shift => c.branches,
        Field::FlowOffset => c.branches,
        Field::Fmax => c.branches,
        Field::Angmin => c.branches,
        Field::Angmax => c.branches,
        Field::Gmin => c.generators,
        Field::Gmax => c.generators,
        Field::Cq => c.generators,
        Field::Cl => c.generators,
        Field::Cc => c.generators,
        Field::CShed => c.buses,
        Field::Demand => c.buses,
        Field::ShuntConductance => c.buses,
        Field::HvdcInjection => c.buses,
        Field::Slopes => c.segments,
        Field::Intercepts => c.segments,
        Field::UpperMw => c.rows,
        Field::LowerMw => c.rows,
    }
}

pub fn field_start(c: Counts, f: Field) -> usize
    requires { Few c }
    ensures { result ≡ field_start c f }
{
    let m = c.branches;
    let k = c.generators;
    let n = c.buses;
    let s = c.segments;
    let q = c.rows;
    match f {
        Field::BaseMva => 0,
        Field::Susceptance => 1,
        Field::Sw => 1 + m,
        Field::Shift => 1 + 2 * m,
        Field::FlowOffset => 1 + 3 * m,
        Field::Fmax => 1 + 4 * m,
        Field::Angmin => 1 + 5 * m,
        Field::Angmax => 1 + 6 * m,
        Field::Gmin => 1 + 7 * m,
        Field::Gmax => 1 + 7 * m + k,
        Field::Cq => 1 + 7 * m + 2 * k,
        Field::Cl => 1 + 7 * m + 3 * k,
        Field::Cc => 1 + 7 * m + 4 * k,
        Field::CShed => 1 + 7 * m + 5 * k,
        Field::Demand => 1 + 7 * m + 5 * k + n,
        Field::ShuntConductance => 1 + 7 * m + 5 * k + 2 * n,
        Field::HvdcInjection => 1 + 7 * m + 5 * k + 3 * n,
        Field::Slopes => 1 + 7 * m + 5 * k + 4 * n,
        Field::Intercepts => 1 + 7 * m + 5 * k + 4 * n + s,
        Field::UpperMw => 1 + 7 * m + 5 * k + 4 * n + 2 * s,
        Field::LowerMw => 1 + 7 * m + 5 * k + 4 * n + 2 * s + q,
    }
}

// Reading i of a field.
// It asks for the readings alone: `Plan`, which has the wiring too, reads by it.
pub fn reading(readings: &[f64], c: Counts, f: Field, i: usize) -> f64
    requires readings_laid { ReadingsLaid c readings.now }
    requires i_bound { i < size c f }
    ensures { result ≡ reading c readings.now f i }
{
    let at = field_start(c, f) + i;
    readings[at]
}
