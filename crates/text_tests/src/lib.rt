//! Tests of bytes in and out, of records, of scenarios and transcripts as texts, and of words.
#![tactic(auto)]

#[cfg(test)]
mod bytes;
#[cfg(test)]
mod generated;
#[cfg(test)]
mod laws;
#[cfg(test)]
mod lines;
#[cfg(test)]
mod records;
#[cfg(test)]
mod scenarios;
#[cfg(test)]
mod summaries;
#[cfg(test)]
mod texts;
#[cfg(test)]
mod transcripts;
#[cfg(test)]
mod versions;
#[cfg(test)]
mod words;
