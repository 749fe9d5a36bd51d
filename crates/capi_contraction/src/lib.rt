// The contraction around an outside solve, for one element and one column a call, and the unit scale as extern "C"
// functions on numbers and byte slices.
#![tactic(auto)]

pub mod calls;
pub mod scale;
pub mod side;
