// Lowest ready task first (document 01, "Replay"): which task is next, and the order of all steps.

#![tactic(auto)]

pub mod columns;
pub mod lowest;
pub mod schedule;
mod visit;
