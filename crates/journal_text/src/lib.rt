//! Texts of journals: entries of a controller's history, and packets that rules sent.
//!
//! docs/FORMATS.md gives the format. `specs/Notes.antt` says what a line's words mean, and `specs/JournalText.antt` the
//! order of lines and how notes are spelled.
#![tactic(auto)]

mod laws;
mod line;
mod note;
mod print;
mod read;

pub use laws::journals_read_back;
pub use note::{Note, Notes, Version};
pub use print::print_journal;
pub use read::read_journal;

#[cfg(test)]
mod tests;
