//! Calls of `run` over files, links and a sink in memory: whole outputs and statuses, and two sessions of which one waits for the other.
#![tactic(auto)]

#[cfg(test)]
mod calls;
#[cfg(test)]
mod expected;
#[cfg(test)]
mod gate;
#[cfg(test)]
mod rows;
#[cfg(test)]
mod scenes;
#[cfg(test)]
mod tests;
