// sens/mod.rs, `forward_adjoint` on both sides of the outside solve: the selection sheet, and the contraction
// of the solved columns.
#![tactic(auto)]

ghost use Rattle.std.specs.Prelude.{◌≡◌, not, ◌+◌, ◌*◌, ◌≤◌, ◌<◌, [], length, get_or, set, take, drop, IfSome};
ghost use Rattle.std.specs.Option.{ForSome};
ghost use Rattle.std.specs.Float.{nan};
ghost use Rattle.std.specs.Float.Ieee.{ne};
ghost use Rattle.float64.specs.Values.{nought};
ghost use Rattle.sequence.specs.Lists.{every, each, made, turns, front};
ghost use Rattle.contraction.specs.Contraction.{selection_word, selection_sheet, column, forward_word, adjoint_word, contracted, Run, Gathers, Entered, Sided};
ghost use Rattle.contraction.specs.Selectors.{selector_in};

use interface::Mode;

// What is selected, as a caller lends it: a sign, how many entries each element has, and the entries, element after
// element, each a row with its weight.
#[derive(Clone, Copy)]
pub struct Selector<'a> {
    pub sign: f64,
    pub counts: &'a [u32],
    pub rows: &'a [u32],
    pub weights: &'a [f64],
}

// A selector whose entries are as many as its counts say, each at a row of a system of dim rows.
#[derive(Clone, Copy)]
pub struct Entries<'a> {
    pub selector: Selector<'a>,
    pub dim: usize,
    pub ghost entered: { Entered (selector_in selector) dim },
}

// Entries with the parameter columns and the solved columns that a mode contracts.
#[derive(Clone, Copy)]
pub struct Sides<'a> {
    pub mode: Mode,
    pub entries: Entries<'a>,
    pub columns: usize,
    pub parameter: &'a [f64],
    pub solved: &'a [f64],
    pub ghost sided: { Sided mode entries.dim columns (length entries.selector.counts.now) parameter.now solved.now },
}

// A sheet's columns, each of dim words.
#[derive(Clone, Copy)]
struct Sheet<'a> {
    words: &'a [f64],
    dim: usize,
    columns: usize,
    ghost in_words: { dim * columns ≤ length words.now },
}

// Rows below dim, each with a weight.
#[derive(Clone, Copy)]
struct Terms<'a> {
    rows: &'a [u32],
    weights: &'a [f64],
    dim: usize,
    ghost run: { Run rows.now weights.now 0 (length rows.now) dim },
}

// A parameter column, with a term for each word that is not zero where these are all gathered.
#[derive(Clone, Copy)]
struct Parameter<'a> {
    words: &'a [f64],
    terms: Option<Terms<'a>>,
    ghost gathers: { ForSome terms (λ t. Gathers t.rows.now t.weights.now (length t.rows.now) (length words.now) words.now) },
    ghost of_dim: { ForSome terms (λ t. t.dim ≡ length words.now) },
}

impl<'a> Sheet<'a> {
    // Column c.
    fn column(self, c: usize) -> &'a [f64]
        requires { c < self.columns }
        ensures is { result.now ≡ column self.entry.dim self.entry.words.now c }
        ensures long { length result.now ≡ self.entry.dim }
    {
        let at = c * self.dim;
        &self.words[at..at + self.dim]
    }
}

impl Terms<'_> {
    // The sign times the terms' sum over a solved column.
    fn word(self, sign: f64, solved: &[f64]) -> f64
        requires { length solved.now ≡ self.dim }
        ensures { result ≡ forward_word sign self.entry.rows.now self.entry.weights.now 0 (length self.entry.rows.now) solved.now }
    {
        let mut sum = 0.0;
        for (t, row) in self.rows.iter().enumerate() {
            sum += self.weights[t] * solved[*row as usize];
        }
        sign * sum
    }

    // An element's words: one for each solved column.
    fn contract(self, sign: f64, solved: Sheet<'_>, out: &mut [f64])
        requires { (solved.dim ≡ self.dim) × (length out.old ≡ solved.columns) }
        ensures { out.new ≡ made (λ c. forward_word sign self.entry.rows.now self.entry.weights.now 0 (length self.entry.rows.now) (column solved.entry.dim solved.entry.words.now c)) (length out.old) }
    {
        for (c, word) in out.iter_mut().enumerate() {
            *word = self.word(sign, solved.column(c));
        }
    }

    // An element's column of the selection sheet: the terms are added, each at its row.
    fn select(self, column: &mut [f64])
        requires { length column.old ≡ self.dim }
        ensures { column.new ≡ made (selection_word self.entry.rows.now self.entry.weights.now 0 (length self.entry.rows.now)) (length column.old) }
    {
        column.fill(0.0);
        for (t, row) in self.rows.iter().enumerate() {
            column[*row as usize] += self.weights[t];
        }
    }
}

impl<'a> Entries<'a> {
    // The n entries from a place on.
    fn terms(self, from: usize, n: usize) -> Terms<'a>
        requires { Run self.selector.rows.now self.selector.weights.now from n self.dim }
        ensures rows { result.rows.now ≡ take n (drop from self.entry.selector.rows.now) }
        ensures weights { result.weights.now ≡ take n (drop from self.entry.selector.weights.now) }
        ensures dim { result.dim ≡ self.entry.dim }
    {
        let to = from + n;
        Terms {
            rows: &self.selector.rows[from..to],
            weights: &self.selector.weights[from..to],
            dim: self.dim,
        }
    }

    // Forward: every element's words, element by element.
    fn contract(self, solved: Sheet<'_>, out: &mut [f64])
        requires dim { solved.dim ≡ self.dim }
        requires columns_in_bounds { length self.selector.counts.now * solved.columns ≤ length out.old }
        ensures { out.new ≡ front (contracted Mode.Forward (selector_in self.entry.selector) self.entry.dim solved.entry.columns [] solved.entry.words.now) out.old }
    {
        let sign = self.selector.sign;
        let mut from = 0;
        let mut at = 0;
        for count in self.selector.counts {
            let n = *count as usize;
            let to = at + solved.columns;
            self.terms(from, n).contract(sign, solved, &mut out[at..to]);
            from += n;
            at = to;
        }
    }

    // The selection sheet, a column for each element.
    pub fn select(self, sheet: &mut [f64])
        requires { self.dim * length self.selector.counts.now ≤ length sheet.old }
        ensures { sheet.new ≡ front (selection_sheet (selector_in self.entry.selector) self.entry.dim) sheet.old }
    {
        let mut from = 0;
        let mut at = 0;
        for entries in self.selector.counts {
            let n = *entries as usize;
            let to = at + self.dim;
            self.terms(from, n).select(&mut sheet[at..to]);
            from += n;
            at = to;
        }
    }
}

// The sign times the sum of a parameter column's words that are not zero over a solved column.
fn adjoint_word(sign: f64, parameter: &[f64], solved: &[f64]) -> f64
    requires { length solved.now ≡ length parameter.now }
    ensures { result ≡ adjoint_word sign (length parameter.now) parameter.now solved.now }
{
    let mut sum = 0.0;
    for (r, v) in parameter.iter().enumerate() {
        if *v != 0.0 {
            sum += *v * solved[r];
        }
    }
    sign * sum
}

// Word r of a parameter column is gathered where it is not zero.
// `rows` and `values` stay single: a struct of two `&mut` would have every step promise that it keeps the two.
fn gather_word(parameter: &[f64], r: usize, rows: &mut [u32], values: &mut [f64], n: usize) -> usize
    requires r_in_bounds { (r < length parameter.now) × (r < 0xFFFF_FFFF) }
    requires n_in_bounds { (n < length rows.old) × (n < length values.old) }
    requires gathers { Gathers rows.old values.old n r parameter.now }
    ensures gathers_2 { Gathers rows.new values.new result (r + 1) parameter.now }
    ensures rows_len_unchanged { (length rows.new ≡ length rows.old) × (length values.new ≡ length values.old) × (result ≤ n + 1) }
{
    let v = parameter[r];
    if v != 0.0 {
        rows[n] = r as u32;
        values[n] = v;
        return n + 1;
    }
    n
}

// Whether the eight words from r on are all zero, of either sign. Each is tested, so that the tests can be made at once.
fn quiet(parameter: &[f64], r: usize) -> bool
    requires { r + 8 ≤ length parameter.now }
    ensures { result ≡ every (λ i. not (ne (get_or parameter.now (r + i) nan) nought)) 8 }
{
    let mut ok = true;
    for i in 0..8 {
        ok &= parameter[r + i] == 0.0;
    }
    ok
}

// The entries of the eight words from r on.
fn gather_block(
    parameter: &[f64],
    r: usize,
    rows: &mut [u32],
    values: &mut [f64],
    n: usize,
) -> usize
    requires r_in_bounds { (r + 8 ≤ length parameter.now) × (r + 8 ≤ 0xFFFF_FFFF) }
    requires n_in_bounds { (n + 8 ≤ length rows.old) × (n + 8 ≤ length values.old) }
    requires gathers { Gathers rows.old values.old n r parameter.now }
    ensures gathers_2 { Gathers rows.new values.new result (r + 8) parameter.now }
    ensures rows_len_unchanged { (length rows.new ≡ length rows.old) × (length values.new ≡ length values.old) × (result ≤ n + 8) }
{
    if quiet(parameter, r) {
        return n;
    }
    let mut k = n;
    for i in 0..8 {
        k = gather_word(parameter, r + i, rows, values, k);
    }
    k
}

// How many entries the words from a place on make with those before them, where the slices have room for all.
fn gather_rest(
    from: usize,
    parameter: &[f64],
    rows: &mut [u32],
    values: &mut [f64],
    count: usize,
) -> Option<usize>
    requires from_le_dim { (from ≤ length parameter.now) × (length parameter.now ≤ 0xFFFF_FFFF) }
    requires count_in_bounds { (count ≤ length rows.old) × (length rows.old ≤ length values.old) }
    requires gathers { Gathers rows.old values.old count from parameter.now }
    ensures gathers_2 { IfSome result (λ n. Gathers rows.new values.new n (length parameter.now) parameter.now) }
    ensures rows_len_unchanged { (length rows.new ≡ length rows.old) × (length values.new ≡ length values.old) }
{
    let mut n = count;
    for r in from..parameter.len() {
        if n == rows.len() {
            return None;
        }
        n = gather_word(parameter, r, rows, values, n);
    }
    Some(n)
}

// The entries of a parameter column, one for each word that is not zero, and how many they are, where the slices have
// room for all: in blocks of eight words, of which most are all zero.
fn gather(parameter: &[f64], rows: &mut [u32], values: &mut [f64]) -> Option<usize>
    requires { length rows.old ≤ length values.old }
    ensures gathers { IfSome result (λ n. Gathers rows.new values.new n (length parameter.now) parameter.now) }
    ensures rows_len_unchanged { (length rows.new ≡ length rows.old) × (length values.new ≡ length values.old) }
{
    let dim = parameter.len();
    // an entry names its row by a u32
    if 0xFFFF_FFFF <= dim {
        return None;
    }
    let blocks = dim / 8;
    let mut n = 0;
    for b in 0..blocks {
        if rows.len() < n + 8 {
            return gather_rest(8 * b, parameter, rows, values, n);
        }
        n = gather_block(parameter, 8 * b, rows, values, n);
    }
    gather_rest(8 * blocks, parameter, rows, values, n)
}

impl<'a> Parameter<'a> {
    // A column with the terms in front of two slices, where they are counted.
    fn gathered(
        words: &'a [f64],
        count: Option<usize>,
        rows: &'a [u32],
        weights: &'a [f64],
    ) -> Parameter<'a>
        requires { IfSome count (λ n. Gathers rows.now weights.now n (length words.now) words.now) }
        ensures { result.words.now ≡ words.now }
    {
        let Some(n) = count else {
            return Parameter { words, terms: None };
        };
        let terms = Terms {
            rows: &rows[..n],
            weights: &weights[..n],
            dim: words.len(),
        };
        let terms = Some(terms);
        Parameter { words, terms }
    }

    // The adjoint word of the column and a solved column.
    fn word(self, sign: f64, solved: &[f64]) -> f64
        requires { length solved.now ≡ length self.words.now }
        ensures { result ≡ adjoint_word sign (length self.entry.words.now) self.entry.words.now solved.now }
    {
        match self.terms {
            Some(terms) => terms.word(sign, solved),
            None => adjoint_word(sign, self.words, solved),
        }
    }

    // Word c of each element, with a column solved for each.
    fn contract(self, sign: f64, solved: Sheet<'_>, columns: usize, c: usize, out: &mut [f64])
        requires dim { solved.dim ≡ length self.words.now }
        requires c_lt_columns { (c < columns) × (solved.columns * columns ≤ length out.old) }
        ensures { out.new ≡ turns (λ o l. set l (o * columns + c) (adjoint_word sign (length self.entry.words.now) self.entry.words.now (column solved.entry.dim solved.entry.words.now o))) out.old solved.entry.columns }
    {
        for element in 0..solved.columns {
            out[element * columns + c] = self.word(sign, solved.column(element));
        }
    }
}

// A parameter column is gathered once, and its words serve every element.
fn adjoint_column(sign: f64, parameter: Sheet<'_>, solved: Sheet<'_>, c: usize, out: &mut [f64])
    requires dim { solved.dim ≡ parameter.dim }
    requires c_lt_columns { (c < parameter.columns) × (solved.columns * parameter.columns ≤ length out.old) }
    ensures { out.new ≡ turns (λ o l. set l (o * parameter.entry.columns + c) (adjoint_word sign parameter.entry.dim (column parameter.entry.dim parameter.entry.words.now c) (column parameter.entry.dim solved.entry.words.now o))) out.old solved.entry.columns }
{
    let mut rows = [0u32; 64];
    let mut values = [0.0; 64];
    let words = parameter.column(c);
    let count = gather(words, &mut rows, &mut values);
    Parameter::gathered(words, count, &rows, &values).contract(
        sign,
        solved,
        parameter.columns,
        c,
        out,
    );
}

// Every element's words, parameter column by parameter column.
fn contract_columns(sign: f64, parameter: Sheet<'_>, solved: Sheet<'_>, out: &mut [f64])
    requires dim { solved.dim ≡ parameter.dim }
    requires columns_in_bounds { solved.columns * parameter.columns ≤ length out.old }
    ensures { out.new ≡ front (each solved.entry.columns (λ o. made (λ c. adjoint_word sign parameter.entry.dim (column parameter.entry.dim parameter.entry.words.now c) (column parameter.entry.dim solved.entry.words.now o)) parameter.entry.columns)) out.old }
{
    // where dim is 0 no sheet bounds the number of columns
    if solved.columns == 0 {
        return;
    }
    for c in 0..parameter.columns {
        adjoint_column(sign, parameter, solved, c, out);
    }
}

impl Sides<'_> {
    // Every element's words, "element by element, columns within".
    pub fn contract(self, out: &mut [f64])
        requires { length self.entries.selector.counts.now * self.columns ≤ length out.old }
        ensures { out.new ≡ front (contracted self.entry.mode (selector_in self.entry.entries.selector) self.entry.entries.dim self.entry.columns self.entry.parameter.now self.entry.solved.now) out.old }
    {
        let entries = self.entries;
        let dim = entries.dim;
        let elements = entries.selector.counts.len();
        match self.mode {
            Mode::Forward => {
                let solved = Sheet {
                    words: self.solved,
                    dim,
                    columns: self.columns,
                };
                entries.contract(solved, out);
            }
            Mode::Adjoint => {
                let parameter = Sheet {
                    words: self.parameter,
                    dim,
                    columns: self.columns,
                };
                let solved = Sheet {
                    words: self.solved,
                    dim,
                    columns: elements,
                };
                contract_columns(entries.selector.sign, parameter, solved, out);
            }
            Mode::Auto => out[..elements * self.columns].fill(0.0),
        }
    }
}
