// sens/mod.rs's `forward_adjoint` as definitions over any commutative ring: both directions give the same matrix.
#![tactic(auto)]
