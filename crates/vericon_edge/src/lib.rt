//! All that is outside the program: the files that it reads and writes, and the sink that its lines go to.
//!
//! A trait says what each object tells of itself and why each of its calls may fail. The objects in memory
//! tell all that they hold, and fail in the calls that a plan lists. Those of the host tell nothing of what
//! they hold: they are the trusted edge.
#![tactic(auto)]

pub mod fault;
pub mod fault_plan;
pub mod files;
pub mod host_files;
pub mod host_sink;
pub mod host_words;
pub mod mem_files;
pub mod mem_sink;
pub mod sink;
