// The tables of the program `oracle_runs`: filled and lent, written as listings, and what is left in rows that hold no mesh.
// Not here: building (`oracle_builds`), the steps (`oracle_steps`), the records of the input (`oracle_runs`).
// Contracts: what callers need to be safe, and of `is_kept` whether tables are as they were filled (`specs/Kept.antt`). No contract can
// say what is written: the run compares that with the recorded answers.
#![tactic(auto)]

pub mod fields;
pub mod held;
pub mod kinds;
pub mod listing;
pub mod rows;
