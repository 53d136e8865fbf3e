//! What holds of network texts, and of networks and their states, as contracts of functions that do nothing.
#![tactic(auto)]

mod laws;

pub use laws::{
    accepted_networks_are_in_order, cases_read_back, finite_states_example, finite_states_suffice,
    states_have_truth_of_lists, texts_give_cases,
};
