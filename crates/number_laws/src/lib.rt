//! The numbers by which the definitions of the plain machine speak.
//! To a reader the constants that definitions name are these numbers; nothing that runs stands on it.
//! Stands on the crates that have these constants.
#![tactic(auto)]

mod laws;

pub use laws::{
    bounds_are_these, calls_have_these_numbers, channels_have_these_numbers, characters_are_these,
    errors_have_these_codes, handles_are_these, names_of_calls_mean_their_numbers, sizes_are_these,
    turns_are_this_long,
};
