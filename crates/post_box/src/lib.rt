//! A box of posts: controllers on threads of their own post preferred velocities into one queue without a
//! lock, and one taker takes them out. `Poster::post` answers with a receipt once a post is in the queue,
//! `Taker::take` appends what waits to a list, and `finish` hands out the rest. No post is lost, doubled or
//! changed, and those of a controller come out in its order.
#![tactic(auto)]

mod limits;
mod post_box;
mod poster;
mod queue;
mod taker;
mod view;

pub use limits::{MOST_CONTROLLERS, MOST_TAKEN};
pub use post_box::{PostBox, finish, open};
pub use poster::{PostFault, Poster, Receipt};
pub use taker::{Taken, Taker};
