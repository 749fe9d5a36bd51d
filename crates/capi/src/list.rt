// The susceptance list in three sheets.
ghost use Rattle.std.specs.Prelude.{◌≡◌};
ghost use Rattle.words.specs.Words.{words_of, doubles_of};
ghost use Rattle.model.specs.Calls.{susceptance_call};
ghost use Rattle.decoding.specs.Exports.{outs, all_whole, decoded, laid_out};

use decoding::list::fill_list;
use model::dc::susceptance_coo;

#[unsafe(no_mangle)]
pub extern "C" fn capi_susceptance_coo(
    wiring: &[u8],
    readings: &[u8],
    term_index: &[u8],
    term_coefficient: &[u8],
    rows: &mut [u8],
    cols: &mut [u8],
    values: &mut [u8],
) -> u64
    ensures { outs result rows.new cols.new values.new ≡ laid_out (all_whole wiring.entry readings.entry term_index.entry term_coefficient.entry) (susceptance_call (decoded wiring.entry readings.entry term_index.entry term_coefficient.entry) (words_of rows.old) (words_of cols.old) (doubles_of values.old)) rows.old cols.old values.old }
{
    fill_list::<2048, _>(
        wiring,
        readings,
        term_index,
        term_coefficient,
        rows,
        cols,
        values,
        susceptance_coo,
    )
}
