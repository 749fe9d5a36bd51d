// Byte slices into arrays of their items, and a network's four into arrays of the greatest lengths.
ghost use Rattle.std.specs.Prelude.{◌≡◌, ◌/◌, length, is_some, IfSome};
ghost use Rattle.sequence.specs.Lists.{made};
ghost use Rattle.network.specs.Sites.{network_in};
ghost use Rattle.decoding.specs.Exports.{decoded, all_whole};
ghost use Rattle.decoding.specs.Decoding.{fits, Held, zeros, Holds, network_taken, Read};

use crate::{Arrays, Lengths, Taken};
use network::Lent;
use words::{FromBytes, decode};

// How many items of a slice stand in front of an array afterwards, where the slice is whole and the array holds them.
pub fn take_front<T: FromBytes>(b: &[u8], into: &mut [T]) -> Option<usize>
    ensures fits { is_some result ≡ fits T.SIZE b.now (length into.old) }
    ensures held { IfSome result (λ n. Held (made (T.nth b.now) (length b.now / T.SIZE)) n into.new) }
{
    if b.len() % T::SIZE != 0 {
        return None;
    }
    let n = b.len() / T::SIZE;
    if into.len() < n {
        return None;
    }
    decode(b, &mut into[..n]);
    Some(n)
}

// The items of a slice in front of an array, where the slice is whole and the array holds them.
pub fn take<'a, T: FromBytes>(b: &[u8], into: &'a mut [T]) -> Option<&'a mut [T]>
    ensures fits { is_some result ≡ fits T.SIZE b.now (length into.old) }
    ensures held { IfSome result (λ s. s.now ≡ made (T.nth b.now) (length b.now / T.SIZE)) }
{
    let n = take_front(b, into)?;
    into.get_mut(..n)
}

impl Arrays {
    // Arrays of zeros.
    pub fn new() -> Arrays
        ensures { result ≡ zeros }
    {
        Arrays {
            wiring: [0; 3033],
            readings: [0.0; 8065],
            indexes: [0; 1024],
            coefficients: [0.0; 1024],
        }
    }

    // The lengths of a network's slices, which stand in front of the arrays afterwards. One that they do not hold has a
    // ragged slice, or sizes that do not hold.
    // Here and below the four slices stay single, as C lends them, in its order.
    pub fn hold(
        &mut self,
        wiring: &[u8],
        readings: &[u8],
        term_index: &[u8],
        term_coefficient: &[u8],
    ) -> Option<Lengths>
        ensures { Read (all_whole wiring.entry readings.entry term_index.entry term_coefficient.entry) (decoded wiring.entry readings.entry term_index.entry term_coefficient.entry) result (λ l. Holds (decoded wiring.entry readings.entry term_index.entry term_coefficient.entry) l self.new) }
    {
        Some(Lengths {
            wiring: take_front(wiring, &mut self.wiring)?,
            readings: take_front(readings, &mut self.readings)?,
            indexes: take_front(term_index, &mut self.indexes)?,
            coefficients: take_front(term_coefficient, &mut self.coefficients)?,
        })
    }

    // A network in front of the arrays.
    pub fn fill<'a>(
        &'a mut self,
        wiring: &[u8],
        readings: &[u8],
        term_index: &[u8],
        term_coefficient: &[u8],
    ) -> Option<Taken<'a>>
        ensures { Read (all_whole wiring.entry readings.entry term_index.entry term_coefficient.entry) (decoded wiring.entry readings.entry term_index.entry term_coefficient.entry) result (λ t. network_taken t ≡ decoded wiring.entry readings.entry term_index.entry term_coefficient.entry) }
    {
        let lengths = self.hold(wiring, readings, term_index, term_coefficient)?;
        let Arrays {
            wiring: words,
            readings: doubles,
            indexes,
            coefficients,
        } = self;
        Some(Taken {
            wiring: words.get(..lengths.wiring)?,
            readings: doubles.get_mut(..lengths.readings)?,
            term_index: indexes.get(..lengths.indexes)?,
            term_coefficient: coefficients.get(..lengths.coefficients)?,
        })
    }

    // The same network as it is lent to the calls.
    pub fn read<'a>(
        &'a mut self,
        wiring: &[u8],
        readings: &[u8],
        term_index: &[u8],
        term_coefficient: &[u8],
    ) -> Option<Lent<'a>>
        ensures { Read (all_whole wiring.entry readings.entry term_index.entry term_coefficient.entry) (decoded wiring.entry readings.entry term_index.entry term_coefficient.entry) result (λ l. network_in l ≡ decoded wiring.entry readings.entry term_index.entry term_coefficient.entry) }
    {
        let Taken {
            wiring,
            readings,
            term_index,
            term_coefficient,
        } = self.fill(wiring, readings, term_index, term_coefficient)?;
        Some(Lent {
            wiring,
            readings,
            term_index,
            term_coefficient,
        })
    }
}
