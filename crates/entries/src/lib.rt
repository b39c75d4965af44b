// The entries of the vectors' file: the text of a line, an entry of the paper's tables, and what a traced call starts with.
#![tactic(auto)]

pub mod tables;
pub mod text;
pub mod traces;
