// The change calls as extern "C" functions: on typed slices with no decoding, and on byte slices.
#![tactic(auto)]

pub mod bytes;
pub mod in_turn;
pub mod typed;
