// sens/dc.rs: `snap`, `snap_linear` and `nu_flow_values` as public calls. Each tests the whole network and the
// whole solution sheet, fills the front of the sheet that it is lent, and answers how many readings it put there;
// a refusal changes no word.
#![tactic(auto)]

pub mod calls;
pub mod duals;
pub mod sheet;
