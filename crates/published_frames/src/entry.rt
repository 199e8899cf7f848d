// What the log of publishes says. No value of these types is made: tokens speak of them.
use crowd_data::{Body, Post, Scenario};
use std::collections::LinkedList;

/// A step of a run: the posts that were taken in, and the number and the bodies of the frame that it led to.
pub struct Step {
    pub posts: LinkedList<Post>,
    pub number: u32,
    pub bodies: LinkedList<Body>,
}

/// An entry of the log.
pub enum Entry {
    /// A history of this scenario begins.
    Start(Scenario),
    /// A step is about to be published, in place of an earlier one that was refused.
    Attempt(Step),
    /// The step that was attempted last is published.
    Success,
}
