//! What every table means and answers: the trait `Table`, over definitions that give for each call the meaning after it and the reply.
//! A table keeps entries, a quotient and a value each, in slots; a group of slots holds no more than a limit.
//! Tables that keep a group to a block of words share their shape, the words past the blocks, and what a check answers.
#![tactic(auto)]

pub mod check_refusal;
pub mod numbers;
pub mod place;
pub mod ranges;
pub mod refusal;
pub mod shape;
pub mod table;
pub mod words;

pub use check_refusal::CheckRefusal;
pub use refusal::TableRefusal;
pub use shape::Shape;
pub use table::Table;
