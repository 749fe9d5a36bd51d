// The assembled program and the multipliers read back, beside the MATPOWER manual's DC program.
#![tactic(auto)]
