// capi_problem for programs in other languages: each export calls the function of its name there, and has its clause.
#![tactic(auto)]

mod program;
mod sheets;
