//! Tests of pages under maps that are pages themselves, in frames of core and on a drum.
//! No layer stands above; to a reader each test is what becomes of a few forks, pages and files, step by step.
//! Stands on known_slots, slot_paged and pager_walk, over pages in memory and in frames and drums in memory.
#![tactic(auto)]

#[cfg(test)]
mod chains;
#[cfg(test)]
mod filed_pages;
#[cfg(test)]
mod laws;
#[cfg(test)]
mod made;
#[cfg(test)]
mod paged_calls;
#[cfg(test)]
mod paged_lists;
#[cfg(test)]
mod paged_maps;
#[cfg(test)]
mod plain_maps;
#[cfg(test)]
mod same;
