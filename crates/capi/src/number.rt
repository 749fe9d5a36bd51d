// The number of a network, and the kind of a row.
ghost use Rattle.std.specs.Prelude.{◌≡◌, cond};
ghost use Rattle.network.specs.Numbers.{network_number};
ghost use Rattle.network.specs.Sites.{network_in};
ghost use Rattle.model.specs.Calls.{row_kind_call};
ghost use Rattle.decoding.specs.Exports.{packed, all_whole, decoded};

use decoding::Arrays;
use decoding::answer::pack_answer;
use model::dc::row_kind;
use network::Lent;
use sequence::Refusal;

// A network's number, in one word.
fn network_number_out(lent: Lent<'_>) -> u64
    ensures { result ≡ network_number (network_in lent.entry) }
{
    match lent.accept() {
        Ok(_) => 0,
        Err(refusal) => refusal.number() as u64,
    }
}

#[unsafe(no_mangle)]
pub extern "C" fn capi_network_number(
    wiring: &[u8],
    readings: &[u8],
    term_index: &[u8],
    term_coefficient: &[u8],
) -> u64
    ensures { result ≡ cond (all_whole wiring.entry readings.entry term_index.entry term_coefficient.entry) (network_number (decoded wiring.entry readings.entry term_index.entry term_coefficient.entry)) 1 }
{
    let mut arrays = Arrays::new();
    let Some(lent) = arrays.read(wiring, readings, term_index, term_coefficient) else {
        return pack_answer(Err(Refusal::Size));
    };
    network_number_out(lent)
}

// A row's kind behind its number, in one word.
fn row_kind_out(lent: Lent<'_>, row: usize) -> u64
    ensures { result ≡ packed (row_kind_call (network_in lent.entry) row).number (row_kind_call (network_in lent.entry) row).kind }
{
    pack_answer(row_kind(lent, row).map(|kind| kind.number() as usize))
}

#[unsafe(no_mangle)]
pub extern "C" fn capi_row_kind(
    wiring: &[u8],
    readings: &[u8],
    term_index: &[u8],
    term_coefficient: &[u8],
    row: usize,
) -> u64
    ensures { result ≡ cond (all_whole wiring.entry readings.entry term_index.entry term_coefficient.entry) (packed (row_kind_call (decoded wiring.entry readings.entry term_index.entry term_coefficient.entry) row).number (row_kind_call (decoded wiring.entry readings.entry term_index.entry term_coefficient.entry) row).kind) 1 }
{
    let mut arrays = Arrays::new();
    let Some(lent) = arrays.read(wiring, readings, term_index, term_coefficient) else {
        return pack_answer(Err(Refusal::Size));
    };
    row_kind_out(lent, row)
}
