//! Tests of the top calls: commands, their output, and worked scenarios.
#![tactic(auto)]

#[cfg(test)]
mod calls;
#[cfg(test)]
mod circle;
#[cfg(test)]
mod commands;
#[cfg(test)]
mod crowds;
#[cfg(test)]
mod live;
#[cfg(test)]
mod posts;
#[cfg(test)]
mod versions;
#[cfg(test)]
mod walls;
