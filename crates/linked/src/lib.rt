// The library for linking from Rust or C: every function takes plain numbers and lent slices, any of which may hold anything. The
// benchmark (`bench/`) calls it next to an implementation that was written from document 01 alone.

#![tactic(auto)]

mod answers;
mod body;
mod calls;
mod pack;
