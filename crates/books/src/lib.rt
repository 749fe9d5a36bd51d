// The port beside the two books: Boyd and Vandenberghe's Convex Optimization, and the MATPOWER manual's DC model.
#![tactic(auto)]
