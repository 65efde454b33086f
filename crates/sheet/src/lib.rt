// The sheet file (document 01, "The sheet program"): checked and read.
#![tactic(auto)]

pub mod file;
pub mod reader;
