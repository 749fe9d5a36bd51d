// `assemble_opf`: the program in nine sheets, typed with no decoding, and on bytes.
ghost use Rattle.std.specs.Prelude.{◌≡◌, true, ◌<◌, take, Result};
ghost use Rattle.sequence.specs.Lists.{front};
ghost use Rattle.sequence.specs.Answers.{number_of};
ghost use Rattle.words.specs.Words.{word_bytes, double_bytes};
ghost use Rattle.network.specs.Layout.{WiringLaid, ReadingsLaid, counts_of};
ghost use Rattle.network.specs.Numbers.{lent};
ghost use Rattle.network.specs.Sites.{network_in};
ghost use Rattle.decoding.specs.Exports.{all_whole, decoded};
ghost use Rattle.opf_problem.specs.Calls.{program, parts_of, assemble_call, counts_of as written_of};
ghost use Rattle.capi_problem.specs.Assembled.{packed_both, packed_program, packing, bytes, words_in, sides_at, back, out, assembled_out};
ghost use Rattle.capi_problem.specs.Cells.{ProgramCells, ListFits, SidesFit};

use crate::Sides;
use decoding::Arrays;
use decoding::answer::{cells_for, encode_list, list_room};
use network::layout::counts;
use network::{Lent, Plan};
use opf_layout::OpfLayout;
use opf_problem::{Written, assemble_opf};
use opf_sides::cone_count;
use sequence::Refusal;
use words::encode;

// Number, A's count and P's count in one word.
fn pack_both(answer: Result<Written, Refusal>) -> u64
    requires { ((written_of answer).a < 0x100_0000) × ((written_of answer).p < 0x100_0000) }
    ensures { result ≡ packed_both (number_of answer) (written_of answer).a (written_of answer).p }
{
    match answer {
        Ok(written) => 256 * (written.a as u64) + 0x1_0000_0000 * (written.p as u64),
        Err(refusal) => refusal.number() as u64,
    }
}

#[unsafe(no_mangle)]
pub extern "C" fn problem_assemble_opf(
    wiring: &[u32],
    readings: &[f64],
    term_index: &[u32],
    term_coefficient: &[f64],
    p_rows: &mut [u32],
    p_cols: &mut [u32],
    p_values: &mut [f64],
    a_rows: &mut [u32],
    a_cols: &mut [u32],
    a_values: &mut [f64],
    q: &mut [f64],
    b: &mut [f64],
    cones: &mut [u32],
) -> u64
    ensures { packed_program result (program p_rows.new p_cols.new p_values.new a_rows.new a_cols.new a_values.new q.new b.new cones.new) ≡ packing (assemble_call (lent wiring.entry readings.entry term_index.entry term_coefficient.entry) (program p_rows.old p_cols.old p_values.old a_rows.old a_cols.old a_values.old q.old b.old cones.old)) }
{
    let lent = Lent {
        wiring,
        readings,
        term_index,
        term_coefficient,
    };
    pack_both(assemble_opf(
        lent, p_rows, p_cols, p_values, a_rows, a_cols, a_values, q, b, cones,
    ))
}

// How many words q, b and the cones' sizes of an accepted network have.
fn side_lengths(wiring: &[u32], readings: &[f64]) -> Sides
    requires wiring_laid { WiringLaid (counts_of wiring.now) wiring.now }
    requires readings_laid { ReadingsLaid (counts_of wiring.now) readings.now }
    ensures { result ≡ sides_at (counts_of wiring.now) wiring.now readings.now }
{
    let c = counts(wiring);
    let plan = Plan {
        counts: c,
        wiring,
        readings,
    };
    let lay = OpfLayout::of(&plan);
    Sides {
        q: lay.nvar,
        b: lay.ncon,
        cones: cone_count(lay),
    }
}

// A's and P's triplets as bytes.
// Here and below the sheets stay single: the cells as the call takes them, the bytes as C lends them, in its order.
fn lists_back(
    written: Written,
    pr: &[u32],
    pc: &[u32],
    pv: &[f64],
    ar: &[u32],
    ac: &[u32],
    av: &[f64],
    p_rows: &mut [u8],
    p_cols: &mut [u8],
    p_values: &mut [u8],
    a_rows: &mut [u8],
    a_cols: &mut [u8],
    a_values: &mut [u8],
)
    requires list_fits { ListFits written.p pr.now pc.now pv.now p_rows.old p_cols.old p_values.old }
    requires list_fits_2 { ListFits written.a ar.now ac.now av.now a_rows.old a_cols.old a_values.old }
    ensures p_rows_after { (p_rows.new ≡ front (word_bytes (take written.p pr.now)) p_rows.old) × (p_cols.new ≡ front (word_bytes (take written.p pc.now)) p_cols.old) × (p_values.new ≡ front (double_bytes (take written.p pv.now)) p_values.old) }
    ensures a_rows_after { (a_rows.new ≡ front (word_bytes (take written.a ar.now)) a_rows.old) × (a_cols.new ≡ front (word_bytes (take written.a ac.now)) a_cols.old) × (a_values.new ≡ front (double_bytes (take written.a av.now)) a_values.old) }
{
    encode_list(Ok(written.p), pr, pc, pv, p_rows, p_cols, p_values);
    encode_list(Ok(written.a), ar, ac, av, a_rows, a_cols, a_values);
}

// q, b and the cones' sizes as bytes.
fn sides_back(
    k: Sides,
    qs: &[f64],
    bs: &[f64],
    ks: &[u32],
    q: &mut [u8],
    b: &mut [u8],
    cones: &mut [u8],
)
    requires { SidesFit k qs.now bs.now ks.now q.old b.old cones.old }
    ensures { (q.new ≡ front (double_bytes (take k.q qs.now)) q.old) × (b.new ≡ front (double_bytes (take k.b bs.now)) b.old) × (cones.new ≡ front (word_bytes (take k.cones ks.now)) cones.old) }
{
    encode(&qs[..k.q], q);
    encode(&bs[..k.b], b);
    encode(&ks[..k.cones], cones);
}

// Every result of an assembled program as bytes.
fn program_back(
    written: Written,
    k: Sides,
    pr: &[u32],
    pc: &[u32],
    pv: &[f64],
    ar: &[u32],
    ac: &[u32],
    av: &[f64],
    qs: &[f64],
    bs: &[f64],
    ks: &[u32],
    p_rows: &mut [u8],
    p_cols: &mut [u8],
    p_values: &mut [u8],
    a_rows: &mut [u8],
    a_cols: &mut [u8],
    a_values: &mut [u8],
    q: &mut [u8],
    b: &mut [u8],
    cones: &mut [u8],
) -> u64
    requires list_fits { ListFits written.p pr.now pc.now pv.now p_rows.old p_cols.old p_values.old }
    requires list_fits_2 { ListFits written.a ar.now ac.now av.now a_rows.old a_cols.old a_values.old }
    requires sides_fit { SidesFit k qs.now bs.now ks.now q.old b.old cones.old }
    ensures { out result (bytes p_rows.new p_cols.new p_values.new a_rows.new a_cols.new a_values.new q.new b.new cones.new) ≡ out (packed_both 0 written.a written.p) (back written.a written.p k (program pr.now pc.now pv.now ar.now ac.now av.now qs.now bs.now ks.now) (bytes p_rows.old p_cols.old p_values.old a_rows.old a_cols.old a_values.old q.old b.old cones.old)) }
{
    lists_back(
        written, pr, pc, pv, ar, ac, av, p_rows, p_cols, p_values, a_rows, a_cols, a_values,
    );
    sides_back(k, qs, bs, ks, q, b, cones);
    pack_both(Ok(written))
}

// The call by way of cells.
fn assemble_cells(
    lent: Lent<'_>,
    pr: &mut [u32],
    pc: &mut [u32],
    pv: &mut [f64],
    ar: &mut [u32],
    ac: &mut [u32],
    av: &mut [f64],
    qs: &mut [f64],
    bs: &mut [f64],
    ks: &mut [u32],
    p_rows: &mut [u8],
    p_cols: &mut [u8],
    p_values: &mut [u8],
    a_rows: &mut [u8],
    a_cols: &mut [u8],
    a_values: &mut [u8],
    q: &mut [u8],
    b: &mut [u8],
    cones: &mut [u8],
) -> u64
    requires { ProgramCells (bytes p_rows.old p_cols.old p_values.old a_rows.old a_cols.old a_values.old q.old b.old cones.old) (program pr.old pc.old pv.old ar.old ac.old av.old qs.old bs.old ks.old) }
    ensures { out result (bytes p_rows.new p_cols.new p_values.new a_rows.new a_cols.new a_values.new q.new b.new cones.new) ≡ assembled_out true (parts_of (network_in lent.entry)) (assemble_call (network_in lent.entry) (words_in (bytes p_rows.old p_cols.old p_values.old a_rows.old a_cols.old a_values.old q.old b.old cones.old))) (bytes p_rows.old p_cols.old p_values.old a_rows.old a_cols.old a_values.old q.old b.old cones.old) }
{
    let answer = assemble_opf(lent, pr, pc, pv, ar, ac, av, qs, bs, ks);
    let Ok(written) = answer else {
        return pack_both(answer);
    };
    let k = side_lengths(lent.wiring, lent.readings);
    program_back(
        written, k, pr, pc, pv, ar, ac, av, qs, bs, ks, p_rows, p_cols, p_values, a_rows, a_cols,
        a_values, q, b, cones,
    )
}

// A decoded network's program.
fn assemble_out(
    lent: Lent<'_>,
    p_rows: &mut [u8],
    p_cols: &mut [u8],
    p_values: &mut [u8],
    a_rows: &mut [u8],
    a_cols: &mut [u8],
    a_values: &mut [u8],
    q: &mut [u8],
    b: &mut [u8],
    cones: &mut [u8],
) -> u64
    ensures { out result (bytes p_rows.new p_cols.new p_values.new a_rows.new a_cols.new a_values.new q.new b.new cones.new) ≡ assembled_out true (parts_of (network_in lent.entry)) (assemble_call (network_in lent.entry) (words_in (bytes p_rows.old p_cols.old p_values.old a_rows.old a_cols.old a_values.old q.old b.old cones.old))) (bytes p_rows.old p_cols.old p_values.old a_rows.old a_cols.old a_values.old q.old b.old cones.old) }
{
    let mut pr = [0u32; 256];
    let mut pc = [0u32; 256];
    let mut pv = [0.0; 256];
    let m = list_room(256, p_rows.len(), p_cols.len(), p_values.len());
    let mut ar = [0u32; 12304];
    let mut ac = [0u32; 12304];
    let mut av = [0.0; 12304];
    let n = list_room(12304, a_rows.len(), a_cols.len(), a_values.len());
    let mut qs = [0.0; 1536];
    let x = cells_for(q.len(), 1536);
    let mut bs = [0.0; 5072];
    let y = cells_for(b.len(), 5072);
    let mut ks = [0u32; 4];
    let z = (cones.len() / 4).min(4);
    assemble_cells(
        lent,
        &mut pr[..m],
        &mut pc[..m],
        &mut pv[..m],
        &mut ar[..n],
        &mut ac[..n],
        &mut av[..n],
        &mut qs[..x],
        &mut bs[..y],
        &mut ks[..z],
        p_rows,
        p_cols,
        p_values,
        a_rows,
        a_cols,
        a_values,
        q,
        b,
        cones,
    )
}

#[unsafe(no_mangle)]
pub extern "C" fn capi_assemble_opf(
    wiring: &[u8],
    readings: &[u8],
    term_index: &[u8],
    term_coefficient: &[u8],
    p_rows: &mut [u8],
    p_cols: &mut [u8],
    p_values: &mut [u8],
    a_rows: &mut [u8],
    a_cols: &mut [u8],
    a_values: &mut [u8],
    q: &mut [u8],
    b: &mut [u8],
    cones: &mut [u8],
) -> u64
    ensures { out result (bytes p_rows.new p_cols.new p_values.new a_rows.new a_cols.new a_values.new q.new b.new cones.new) ≡ assembled_out (all_whole wiring.entry readings.entry term_index.entry term_coefficient.entry) (parts_of (decoded wiring.entry readings.entry term_index.entry term_coefficient.entry)) (assemble_call (decoded wiring.entry readings.entry term_index.entry term_coefficient.entry) (words_in (bytes p_rows.old p_cols.old p_values.old a_rows.old a_cols.old a_values.old q.old b.old cones.old))) (bytes p_rows.old p_cols.old p_values.old a_rows.old a_cols.old a_values.old q.old b.old cones.old) }
{
    let mut arrays = Arrays::new();
    let Some(lent) = arrays.read(wiring, readings, term_index, term_coefficient) else {
        return pack_both(Err(Refusal::Size));
    };
    assemble_out(
        lent, p_rows, p_cols, p_values, a_rows, a_cols, a_values, q, b, cones,
    )
}
