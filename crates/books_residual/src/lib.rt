// The KKT residual of the MATPOWER manual's DC program, and its derivatives in the parameters.
#![tactic(auto)]
