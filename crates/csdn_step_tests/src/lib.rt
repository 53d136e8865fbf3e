//! Events and what they come to, worked by hand from the tables of docs/LANGUAGE.md. Networks with their states are texts of
//! docs/FORMATS.md.
#![tactic(auto)]

#[cfg(test)]
mod tests;
