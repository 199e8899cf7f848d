//! Whom an agent sees: its exact neighbours, and whether it misses a near agent.
//!
//! `Tree` holds the places of all agents twice: by square cells, two places each on average, and as a
//! kd-tree, each node of which is a piece of the agents' numbers with a box around their places. Neighbours
//! are looked for in the cells around an agent, and in the kd-tree where the cells don't show all of them.
//! It takes its memory once.
#![tactic(auto)]

mod bounds;
mod cell;
mod cell_sort;
mod collect;
mod distance;
mod grid;
mod layout;
mod missed;
mod near;
mod node;
mod query;
mod tree;

pub use near::Near;
pub use tree::Tree;
