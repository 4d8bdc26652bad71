// A list of steps of refining with orders that stand one behind the other, as a definition: each step is handed its order, and the
// scratch that the step before it left. What it leaves is what a run of these steps leaves, so that `Demand3` of `runs` speaks of it.
// Not here: the code that makes it (`step_runs`), what is claimed of runs (`runs`).
// Definitions: `specs/Runs.antt`. Claims: `specs/Claims.antt`, proved in `proofs/Theorem.antt`. Laws: `proofs/Runs.antt`.
#![tactic(auto)]
