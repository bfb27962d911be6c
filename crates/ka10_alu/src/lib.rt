//! The integer operations of the KA10 on words.
//! To the layers above each operation is its equation in sums, products, quotients and bits.
//! Stands on word36.
#![tactic(auto)]

mod arithmetic;
mod booleans;
mod conditions;
mod halves;
mod laws;
mod out;
mod shifts;
mod tests;

pub use arithmetic::{add, arith, subtract};
pub use booleans::boolean;
pub use conditions::holds;
pub use halves::half;
pub use laws::{
    arithmetic_shifts_go_by_places, booleans_go_by_bits, divisions_are_whole,
    first_ones_are_leftmost, halfwords_are_moved, logical_shifts_move_bits,
    logical_shifts_multiply_and_divide, products_are_whole, sums_are_signed,
    tests_change_masked_bits, tests_skip_by_masked_bits, whole_turns_are_nothing,
};
pub use out::Out;
pub use shifts::shift;
pub use tests::{mask, test};
