// What the test programs share.
#![tactic(auto)]

pub mod buffers;
pub mod graph;
pub mod rows;

// A case file, and an answer file, by their lines from line 2 on.
#[macro_export]
macro_rules! case {
    ($lines:literal) => {
        concat!("version vertices edges source workers\n", $lines)
    };
}

#[macro_export]
macro_rules! answer {
    ($lines:literal) => {
        concat!("version verdict stem cycle reached\n", $lines)
    };
}
