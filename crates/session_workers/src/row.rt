//! What is kept of the sessions of a worker.
use session_serve::Ended;

/// The ends of the sessions of one worker, in the order of their numbers.
#[derive(Drop)]
pub struct Row {
    pub ends: Vec<Ended>,
}

/// The links of these sessions.
#[derive(Drop)]
pub struct Links<K> {
    pub links: Vec<K>,
}
