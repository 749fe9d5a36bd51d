// Byte slices into words and doubles, and a call's answer back into bytes, for the calls that programs
// in other languages make.
#![tactic(auto)]

pub mod answer;
pub mod decode;
pub mod fill;
pub mod list;

// Arrays of the greatest lengths that a network's slices have.
#[derive(Drop)]
pub struct Arrays {
    pub wiring: [u32; 3033],
    pub readings: [f64; 8065],
    pub indexes: [u32; 1024],
    pub coefficients: [f64; 1024],
}

// The lengths of a network's slices in front of such arrays.
#[derive(Clone, Copy)]
pub struct Lengths {
    pub wiring: usize,
    pub readings: usize,
    pub indexes: usize,
    pub coefficients: usize,
}

// A network's slices in front of such arrays, of which the readings may change.
#[derive(Drop)]
pub struct Taken<'a> {
    pub wiring: &'a [u32],
    pub readings: &'a mut [f64],
    pub term_index: &'a [u32],
    pub term_coefficient: &'a [f64],
}
