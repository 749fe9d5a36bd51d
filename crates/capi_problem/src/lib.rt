// The calls of problem/dc.rs as extern "C" functions on byte slices, and the program on typed slices too,
// for programs in other languages.
#![tactic(auto)]

pub mod program;
pub mod sheets;

// How many words q, b and the cones' sizes have.
#[derive(Clone, Copy)]
pub struct Sides {
    pub q: usize,
    pub b: usize,
    pub cones: usize,
}
