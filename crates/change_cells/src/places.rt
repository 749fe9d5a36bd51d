// Where the matrix's cells stand.
ghost use Rattle.network.specs.Numbers.{Wired};
ghost use Rattle.kkt_index.specs.Index.{Narrow};

use kkt_index::KktIdx;
use network::Wiring;

// A network's wiring, and the index that says where the matrix's rows and columns stand.
#[derive(Clone, Copy)]
pub struct Places<'a> {
    pub wiring: Wiring<'a>,
    pub index: KktIdx,
    pub ghost wired: { Wired wiring.counts wiring.words.now },
    pub ghost narrow: { Narrow index },
}
