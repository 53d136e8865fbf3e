//! What is prepared before the listener is used.
use csdn_run::Runtime;
use file_loads::outcome::Outcome;
use session_workers::Terms;

/// An accepted program over its network, the line that says yes, how much is served, and the port that is listened on.
#[derive(Drop)]
pub struct Start {
    pub runtime: Runtime,
    pub first: Vec<u8>,
    pub terms: Terms,
    pub port: u16,
}

/// A start, or what is told where nobody is served.
#[derive(Drop)]
pub enum Prepared {
    Ready(Start),
    Told(Outcome),
}
