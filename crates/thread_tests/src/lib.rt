//! Tests of what threads share: pieces of a step, posts, published frames, turns and live runs.
#![tactic(auto)]

#[cfg(test)]
mod claims;
#[cfg(test)]
mod frames;
#[cfg(test)]
mod gates;
#[cfg(test)]
mod live;
#[cfg(test)]
mod posts;
#[cfg(test)]
mod stepping;
#[cfg(test)]
mod texts;
#[cfg(test)]
mod turns;
