// What the desk programs share: files read whole into lent buffers, arguments that are numbers, printing, and the lines of
// a refusal. What a file of the system holds and what it takes no contract can say (Offered in specs/ names the second);
// that a reader's known bytes come whole, fill's does, and that the bytes of a line are right, its writer's.
#![tactic(auto)]

mod errors;
mod input;
mod output;

pub use errors::{ErrorOutput, complain, fail};
pub use input::{
    ENOUGH, argument_count_is, fill, is_given, number_argument, read_argument, read_input,
};
pub use output::{finish_page, print, write_between, write_refusal, write_refused};
