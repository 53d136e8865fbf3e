//! Texts of networks: the first line that is refused and why, and cases that are printed and read again, worked by hand from
//! docs/FORMATS.md.
#![tactic(auto)]

#[cfg(test)]
mod tests;
