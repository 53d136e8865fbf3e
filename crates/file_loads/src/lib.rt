//! Files of a call: what a read answered, and what is said where a file gave nothing; a file's program, case, notes or
//! bytes; and one file written.
//!
//! What a call prints is a relation to the answers of its reads, in the order of the files that it names, and to the write
//! that it made; it speaks of no count. One relation says which answers and which write the files explain (`specs/Explained`).
#![tactic(auto)]

pub mod lines;
pub mod load;
pub mod networks;
pub mod outcome;
pub mod read;
pub mod write;
