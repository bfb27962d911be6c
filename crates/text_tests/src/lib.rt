//! Tests of texts: the script's lines as events, the transcript and the record, sources, sinks and drums.
//! No layer stands above; to a reader each test is bytes and what they are, or what is written.
//! Stands on script_lang, texts and outside.
#![tactic(auto)]

#[cfg(test)]
mod canonical;
#[cfg(test)]
mod drums;
#[cfg(test)]
mod events;
#[cfg(test)]
mod fixed_texts;
#[cfg(test)]
mod laws;
#[cfg(test)]
mod made;
#[cfg(test)]
mod same;
#[cfg(test)]
mod sinks;
#[cfg(test)]
mod streams;
#[cfg(test)]
mod writing;
