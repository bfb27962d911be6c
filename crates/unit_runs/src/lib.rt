//! Units of programs over pages in memory, and what each leaves, worked out from the handbook by hand.
//! No layer stands above; to a reader each row of a table is a program in the accumulators.
//! Stands on ka10_unit, text_pointers and flat_pages.
#![tactic(auto)]

#[cfg(test)]
mod acts;
#[cfg(test)]
mod addresses;
#[cfg(test)]
mod bursts;
#[cfg(test)]
mod byte_steps;
#[cfg(test)]
mod page_steps;
#[cfg(test)]
mod pointed_texts;
#[cfg(test)]
mod runs;
#[cfg(test)]
mod same;
#[cfg(test)]
mod spaces;
#[cfg(test)]
mod top;
