//! A day's arrival list: how a line is read, what is found of a stay, what comes of its nights, and what stays and their faults are called.
//! Everything that the program at the desk decides stands here; the program prints it.
#![tactic(auto)]

pub mod check;
pub mod findings;
pub mod layout;
pub mod lines;
pub mod mix;
pub mod stay;
