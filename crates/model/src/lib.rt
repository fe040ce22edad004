//! The calls of a register, the plain machine that every register must answer like, and what is true of every list of calls put to it.
//! The machine stands in `specs/Model.antt` and `specs/Step.antt`; it runs nothing. Each law is the contract of a function in `laws`.
#![tactic(auto)]

// What is put to a register, and what it answers.
pub mod answer;
pub mod call;
pub mod numbers;
pub mod refusal;
pub mod run_refusal;

// What is true of every list of calls, and what comes of some.
pub mod laws;
pub mod tried;
