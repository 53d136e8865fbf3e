//! Lines, words and decimal numbers of texts that are read line by line.
//!
//! A text format is a machine over the lines that count: a state and a line give the next state, or a reason
//! why the line is refused (`specs/Machine.antt`). This crate gives what every such format needs in code:
//! the lines that count with their numbers, the reader that goes over them (`read_lines`), the words of a
//! line, decimal numbers without leading zeros, what stands behind the first word, and a test for numbers
//! that stand twice; and for writing, words, numbers and lines, with the law that printed lines are read
//! again word by word.
//!
//! Lines end with a newline; the last may lack it. Words are separated by spaces. A line without words, and
//! one whose first word begins with `#`, is passed over and counted. Line numbers begin with 1.
#![tactic(auto)]

mod cut;
mod distinct;
mod laws;
mod lines;
mod number;
mod print;
mod read;
mod rest_of_line;
mod words;

pub use distinct::are_distinct;
pub use laws::printed_lines_are_read;
pub use lines::{Lines, Next};
pub use number::read_number;
pub use print::{put_line, put_line_end, put_next_number, put_next_word, put_number, put_word};
pub use read::{LineRefusal, Stop, read_lines};
pub use rest_of_line::behind_word;
pub use words::Words;
