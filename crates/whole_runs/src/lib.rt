//! Whole runs of the emulator in memory: what a script prints and records. No layer stands above; scripts that run over real
//! streams too stand in examples/, with their texts, and runs in which a call fails are rows of fault_rows.
//! Stands on run_console, and calls the laws of plain_laws and number_laws.
#![tactic(auto)]

#[cfg(test)]
mod faultless;
#[cfg(test)]
mod files;
#[cfg(test)]
mod first;
#[cfg(test)]
mod laws;
#[cfg(test)]
mod limits;
#[cfg(test)]
mod memory_run;
#[cfg(test)]
mod same;
#[cfg(test)]
mod scripts;
