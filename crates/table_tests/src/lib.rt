//! Tests of the monitor's tables: numbers, files, JFNs, frames, shares, the drum's queue, typing and commands.
//! No layer stands above; to a reader each test is a table's life, step by step.
//! Stands on the crates of tables.
#![tactic(auto)]

#[cfg(test)]
mod commands;
#[cfg(test)]
mod directory;
#[cfg(test)]
mod entries;
#[cfg(test)]
mod files;
#[cfg(test)]
mod frames;
#[cfg(test)]
mod jfns;
#[cfg(test)]
mod keys;
#[cfg(test)]
mod laws;
#[cfg(test)]
mod made;
#[cfg(test)]
mod named;
#[cfg(test)]
mod numbers;
#[cfg(test)]
mod orders;
#[cfg(test)]
mod same;
#[cfg(test)]
mod shares;
#[cfg(test)]
mod transfers;
#[cfg(test)]
mod typing;
#[cfg(test)]
mod values;
