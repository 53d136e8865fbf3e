//! All that a session says to a stream of bytes, where something answers its asks: a journal, or a seat of a hall.
//!
//! [`hear_next`] is one step of a loop over pieces of a stream: it takes a piece up to the next message, and says what the
//! message calls for. [`speak`] is such a loop over bytes that are there. `specs/Speeches.antt` says what a session says.
#![tactic(auto)]

mod answers;
mod echoes;
mod hearing;
mod laws;
mod speaking;
mod stops;

pub use answers::{Answers, Unanswered};
pub use hearing::{Hearing, hear, hear_next};
pub use laws::{answers_grow, any_pieces, longer_histories, one_answer};
pub use speaking::{Spoken, speak};
pub use stops::{Broken, SpeechStop, SpokenEnd};
