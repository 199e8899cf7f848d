//! Tests of crowds: what is a valid one, whom its agents see, what they do, and its next frames.
#![tactic(auto)]

#[cfg(test)]
mod advice;
#[cfg(test)]
mod arrays;
#[cfg(test)]
mod crowds;
#[cfg(test)]
mod laws;
#[cfg(test)]
mod neighbours;
#[cfg(test)]
mod scenarios;
#[cfg(test)]
mod validity;
