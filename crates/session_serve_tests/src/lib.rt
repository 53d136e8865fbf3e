//! Sessions that are served over links in memory, each with calls that fail.
#![tactic(auto)]

#[cfg(test)]
mod cases;
#[cfg(test)]
mod dialogue;
#[cfg(test)]
mod faults;
#[cfg(test)]
mod halls;
#[cfg(test)]
mod tests;
