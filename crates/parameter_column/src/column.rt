// A column of the sheet.
ghost use Rattle.parameter_column.specs.Walks.{Fitted};

use kkt_index::KktIdx;
use network::Counts;

// A word for each row of the system, with the index that says where each block's rows stand.
#[derive(Drop)]
pub struct Column<'a> {
    pub counts: Counts,
    pub index: KktIdx,
    pub words: &'a mut [f64],
    pub ghost fitted: { Fitted counts index words.now },
}
