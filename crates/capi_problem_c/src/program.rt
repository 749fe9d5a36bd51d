// `assemble_opf`: the program in nine sheets. The two exports are alike but for their types: C lends numbers to
// `problem_assemble_opf`, and bytes to `capi_assemble_opf`.
ghost use Rattle.std.specs.Prelude.{◌≡◌};
ghost use Rattle.network.specs.Numbers.{lent};
ghost use Rattle.decoding.specs.Exports.{all_whole, decoded};
ghost use Rattle.opf_problem.specs.Calls.{program, parts_of, assemble_call};
ghost use Rattle.capi_problem.specs.Assembled.{packed_program, packing, bytes, words_in, out, assembled_out};

#[unsafe(no_mangle)]
pub extern "C" fn problem_assemble_opf(
    wiring: &[u32],
    readings: &[f64],
    term_index: &[u32],
    term_coefficient: &[f64],
    p_rows: &mut [u32],
    p_cols: &mut [u32],
    p_values: &mut [f64],
    a_rows: &mut [u32],
    a_cols: &mut [u32],
    a_values: &mut [f64],
    q: &mut [f64],
    b: &mut [f64],
    cones: &mut [u32],
) -> u64
    ensures { packed_program result (program p_rows.new p_cols.new p_values.new a_rows.new a_cols.new a_values.new q.new b.new cones.new) ≡ packing (assemble_call (lent wiring.entry readings.entry term_index.entry term_coefficient.entry) (program p_rows.old p_cols.old p_values.old a_rows.old a_cols.old a_values.old q.old b.old cones.old)) }
{
    capi_problem::program::problem_assemble_opf(
        wiring,
        readings,
        term_index,
        term_coefficient,
        p_rows,
        p_cols,
        p_values,
        a_rows,
        a_cols,
        a_values,
        q,
        b,
        cones,
    )
}

#[unsafe(no_mangle)]
pub extern "C" fn capi_assemble_opf(
    wiring: &[u8],
    readings: &[u8],
    term_index: &[u8],
    term_coefficient: &[u8],
    p_rows: &mut [u8],
    p_cols: &mut [u8],
    p_values: &mut [u8],
    a_rows: &mut [u8],
    a_cols: &mut [u8],
    a_values: &mut [u8],
    q: &mut [u8],
    b: &mut [u8],
    cones: &mut [u8],
) -> u64
    ensures { out result (bytes p_rows.new p_cols.new p_values.new a_rows.new a_cols.new a_values.new q.new b.new cones.new) ≡ assembled_out (all_whole wiring.entry readings.entry term_index.entry term_coefficient.entry) (parts_of (decoded wiring.entry readings.entry term_index.entry term_coefficient.entry)) (assemble_call (decoded wiring.entry readings.entry term_index.entry term_coefficient.entry) (words_in (bytes p_rows.old p_cols.old p_values.old a_rows.old a_cols.old a_values.old q.old b.old cones.old))) (bytes p_rows.old p_cols.old p_values.old a_rows.old a_cols.old a_values.old q.old b.old cones.old) }
{
    capi_problem::program::capi_assemble_opf(
        wiring,
        readings,
        term_index,
        term_coefficient,
        p_rows,
        p_cols,
        p_values,
        a_rows,
        a_cols,
        a_values,
        q,
        b,
        cones,
    )
}
