// Document 01's bench network: B1 to B11 as one array of cases.
#![tactic(auto)]
