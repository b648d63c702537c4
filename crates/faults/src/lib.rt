// What is wrong with a text: which word of which line, and what was expected instead.

#![tactic(auto)]

mod expected;
pub mod fault;
pub mod kind;
mod name;
mod reading;
mod shown;
mod stop;
