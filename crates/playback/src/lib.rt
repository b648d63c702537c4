// A recording played to its end, always the lowest ready task, and compared with another recording. Document 01, "Replay". This crate is
// above the scheduler, which finds the next task, and the replayer, whose access, soundness test and opening it uses.

#![tactic(auto)]

pub mod alike;
pub mod finish;
pub mod to_end;
