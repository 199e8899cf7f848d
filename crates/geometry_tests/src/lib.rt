//! Tests of exact plane geometry, of the planar program, of half-planes and of the separation laws.
#![tactic(auto)]

#[cfg(test)]
mod exact_values;
#[cfg(test)]
mod hard_planes;
#[cfg(test)]
mod one_line;
#[cfg(test)]
mod pairs;
#[cfg(test)]
mod programs;
#[cfg(test)]
mod separation;
