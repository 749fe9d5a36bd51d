// The calls of sens/dc.rs as extern "C" functions on byte slices, and the matrix on typed slices too, for
// programs in other languages.
#![tactic(auto)]

pub mod matrix;
pub mod sheets;
