// Document 01's network B: prints its number, the fixed withdrawal of each bus, the generator's cost
// at power 1, and its susceptance list, each double by its bits.
#![tactic(auto)]

use model::dc::{current_fixed_withdrawal, generator_cost, susceptance_coo};
use network::Lent;
use sequence::count;

// Standard output, as every process is given it.
const STDOUT_FILENO: i32 = 1;

fn main() {
    let wiring = [2, 1, 1, 1, 0, 0, 0, 0, 1, 0, 1, 0, 0, 0, 1, 1, 1];
    let readings = [
        100.0, -4.0, 1.0, 0.0, 0.0, 4.0, -0.5, 0.5, 0.0, 2.0, 1.0, 0.0, 0.0, 3.0, 3.0, 0.0, 1.0,
        0.0, 0.0, 0.0, 0.0,
    ];
    let lent = Lent {
        wiring: &wiring,
        readings: &readings,
        term_index: &[],
        term_coefficient: &[],
    };
    numbers(lent);
    susceptances(lent);
}

fn numbers(lent: Lent<'_>) {
    let number = lent.accept().map_or_else(|refusal| refusal.number(), |_| 0);
    io::write_all(STDOUT_FILENO, b"network ");
    io::print_decimal(STDOUT_FILENO, number as u64);
    io::write_all(STDOUT_FILENO, b"\n");
    let mut out = [0.0; 2];
    let buses = count(current_fixed_withdrawal(lent, &mut out));
    for withdrawal in out.iter().take(buses) {
        line(b"withdrawal ", *withdrawal);
    }
    let costs = count(generator_cost(lent, 0, 1.0, &mut out));
    for cost in out.iter().take(costs) {
        line(b"cost ", *cost);
    }
}

fn line(name: &[u8], x: f64) {
    io::write_all(STDOUT_FILENO, name);
    io::print_hex(STDOUT_FILENO, words::pattern(x), 16);
    io::write_all(STDOUT_FILENO, b"\n");
}

fn susceptances(lent: Lent<'_>) {
    let mut rows = [0; 8];
    let mut cols = [0; 8];
    let mut values = [0.0; 8];
    let entries = count(susceptance_coo(lent, &mut rows, &mut cols, &mut values));
    for ((row, col), value) in rows.iter().zip(&cols).zip(&values).take(entries) {
        io::write_all(STDOUT_FILENO, b"susceptance ");
        io::print_decimal(STDOUT_FILENO, *row as u64);
        io::write_all(STDOUT_FILENO, b" ");
        io::print_decimal(STDOUT_FILENO, *col as u64);
        line(b" ", *value);
    }
}
