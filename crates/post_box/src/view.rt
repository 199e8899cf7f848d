// What a pass on the queue knows.
use crowd_data::Post;
use std::collections::LinkedList;

/// What a pass is for. A spent one does nothing.
pub enum Role {
    Poster,
    Taker,
    Spent,
}

/// The posts of one controller, in order. No value of it is made.
pub struct ControllerPosts {
    pub controller: u32,
    pub posts: LinkedList<Post>,
}

/// What a pass knows. No value of it is made.
pub struct Known {
    pub role: Role,
    /// The number of the poster's controller.
    pub controller: u32,
    /// How many controllers the taker has made posters for, numbered from 0.
    pub controllers: u32,
    /// How many agents there are.
    pub agents: u32,
    /// What the poster posted, or what the taker took, in order.
    pub posts: LinkedList<Post>,
    /// All posts of each poster that the taker took back.
    pub final_posts: LinkedList<ControllerPosts>,
}
