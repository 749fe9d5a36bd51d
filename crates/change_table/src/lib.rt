// Site changes: the reading that each kind sets, and the cells of the matrix that it names.
#![tactic(auto)]

ghost use Rattle.std.specs.Prelude.{◌≡◌, true, ◌<◌, ◌≤◌};
ghost use Rattle.change_table.specs.Table.{is_kind, field_of};

use network::Field;

const KINDS: [Field; 9] = [
    Field::Demand,
    Field::Fmax,
    Field::Sw,
    Field::Susceptance,
    Field::Angmin,
    Field::Angmax,
    Field::Cq,
    Field::Gmin,
    Field::Gmax,
];

// The reading that a kind sets.
pub fn field_of(kind: usize) -> Field
    requires { (0 < kind) × (kind ≤ 9) }
    ensures { result ≡ field_of kind }
{
    KINDS[kind - 1]
}

// Whether a number is a kind.
pub fn is_kind(kind: usize) -> bool
    ensures { (result ≡ is_kind kind) × (result ≡ true → (0 < kind) × (kind ≤ 9)) }
{
    0 < kind && kind <= 9
}
