// Text of case and answer files: readers at a place of a lent text, a reader that carries its text along, and writers
// into a lent output. Definitions are in specs/.
#![tactic(auto)]

pub mod read;
pub mod reader;
pub mod write;
