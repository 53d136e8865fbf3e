//! Tests of links and listeners: those in memory with each call that fails in turn, and those over the sockets of this machine.
#![tactic(auto)]

#[cfg(test)]
mod memory;
#[cfg(test)]
mod sockets;
