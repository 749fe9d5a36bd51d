// The calls as extern "C" functions on numbers and byte slices, for programs in other languages.
#![tactic(auto)]

mod buses;
mod element;
mod list;
mod number;
