//! Formulas that programs spell: their counts, their normal forms and the forms made of them, worked by hand.
#![tactic(auto)]

#[cfg(test)]
mod tests;
