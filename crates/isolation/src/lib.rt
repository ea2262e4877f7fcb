// Definitions and theorems about runs of block service calls; no code.

#![tactic(auto)]
