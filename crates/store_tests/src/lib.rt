//! Tests of pages in frames of core and on a drum.
//! No layer stands above; to a reader each test is the life of a few pages, step by step.
//! Stands on paged_store, over drums in memory and in a file.
#![tactic(auto)]

#[cfg(test)]
mod calls;
#[cfg(test)]
mod faults;
#[cfg(test)]
mod in_a_file;
#[cfg(test)]
mod lists;
#[cfg(test)]
mod made;
#[cfg(test)]
mod same;
#[cfg(test)]
mod steps;
