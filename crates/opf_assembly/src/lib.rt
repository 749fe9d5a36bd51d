// problem/dc.rs's `assemble_opf` as definitions; the crates after this one put it into lent sheets.
#![tactic(auto)]
