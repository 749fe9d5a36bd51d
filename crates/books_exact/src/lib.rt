// The books' formulas in exact arithmetic: the KKT matrix and the parameters' columns as derivatives of one residual.
#![tactic(auto)]
