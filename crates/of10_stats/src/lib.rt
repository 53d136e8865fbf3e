//! The bodies of OpenFlow 1.0 statistics messages, and queues.
//!
//! `of10_msgs` reads and writes the messages that hold them.
#![tactic(auto)]

mod counters;
mod entry;
mod queue;
mod reply;
mod request;

pub use counters::{PortCounters, QueueCounters, Table};
pub use entry::{FlowEntries, FlowEntry};
pub use queue::{Properties, Queue, QueueProperty, Queues};
pub use reply::{StatsReply, read_reply};
pub use request::{StatsRequest, read_request};
