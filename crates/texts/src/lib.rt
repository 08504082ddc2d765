// Texts: lines cut into words, words read as numbers and commands. A text is bytes, whatever they are.
#![tactic(auto)]

pub mod laws;
pub mod read;
pub mod words;
