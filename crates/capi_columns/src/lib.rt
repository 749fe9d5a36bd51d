// A parameter's column and an operand's selector as extern "C" functions on numbers and byte slices.
#![tactic(auto)]

pub mod operand;
pub mod parameter;
