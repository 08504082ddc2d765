// Messages: what a line of text can ask for, what is answered, and want of memory as a program tells it.
#![tactic(auto)]

pub mod command;
pub mod failure;
pub mod write;
