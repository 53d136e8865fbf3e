//! What a run hands back.
use csdn_run::Runtime;
use vericon_links::listener::Listener;

/// The status, the listener, and the runtime with all that was entered, where there was one.
#[derive(Drop)]
pub struct Ran<L: Listener> {
    pub status: u8,
    pub listener: L,
    pub runtime: Option<Runtime>,
}
