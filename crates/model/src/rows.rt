// A linear row's limits, read from its mask and its two slots.
ghost use Rattle.std.specs.Prelude.{◌≡◌, ◌<◌};
ghost use Rattle.model.specs.Kinds.{kind_number};
ghost use Rattle.model.specs.Rows.{masked_limits, row_limits, is_equality, kind_of};

use crate::{RowKind, RowLimits};
use network::{Field, Part, Plan};

// The limits that a mask names: 1 the upper, 2 the lower, 3 both. The mask is a word of the network, not an enum's
// number, and two values go with it.
pub fn limits_of(mask: usize, upper: f64, lower: f64) -> RowLimits
    ensures { result ≡ masked_limits mask upper lower }
{
    match mask {
        1 => RowLimits::Upper(upper),
        2 => RowLimits::Lower(lower),
        3 => {
            if lower == upper {
                RowLimits::Equal(lower)
            } else {
                RowLimits::Both(upper, lower)
            }
        }
        _ => RowLimits::None,
    }
}

// The limits of row q.
pub fn row_limits(plan: &Plan<'_>, q: usize) -> RowLimits
    requires { q < plan.now.counts.rows }
    ensures { result ≡ row_limits plan.now.counts plan.now.wiring.now plan.now.readings.now q }
{
    let mask = plan.word(Part::Masks, q);
    let upper = plan.reading(Field::UpperMw, q);
    let lower = plan.reading(Field::LowerMw, q);
    limits_of(mask, upper, lower)
}

impl RowLimits {
    // Whether both limits are there and are equal as numbers.
    pub fn is_equality(self) -> bool
        ensures { result ≡ is_equality self }
    {
        matches!(self, RowLimits::Equal(_))
    }

    // Which of the limits there are.
    pub fn kind(self) -> RowKind
        ensures { kind_number result ≡ kind_of self }
    {
        match self {
            RowLimits::None => RowKind::None,
            RowLimits::Upper(_) => RowKind::Upper,
            RowLimits::Lower(_) => RowKind::Lower,
            RowLimits::Both(_, _) => RowKind::Both,
            RowLimits::Equal(_) => RowKind::Equal,
        }
    }
}
