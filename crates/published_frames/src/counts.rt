// How many posts of each controller were published.
ghost use Rattle.std.specs.Prelude.{◌≡◌, ◌+◌, ◌<◌, ℕ, length, min, slice_index};
ghost use Rattle.published_frames.specs.Taken.{most_counted, posts_from};

use crowd_data::Post;

/// How many controllers there may be; their numbers are below it.
pub const CONTROLLERS: usize = 16;

// A count for each controller, which stays at the greatest `u32` once it is reached.
#[derive(Clone, Copy)]
pub(crate) struct PostCounts {
    pub(crate) counts: [u32; CONTROLLERS],
}

impl PostCounts {
    pub(crate) fn none() -> PostCounts
        ensures { (controller : ℕ) → controller < CONTROLLERS → slice_index result.counts controller ≡ 0 }
    {
        PostCounts {
            counts: [0; CONTROLLERS],
        }
    }

    // The counts once these posts are taken in too.
    pub(crate) fn with(self, posts: &[Post]) -> PostCounts
        ensures { (controller : ℕ) → controller < CONTROLLERS
            → slice_index result.counts controller ≡ min (slice_index self.counts controller + length (posts_from controller posts.now)) most_counted }
    {
        let mut counts = self.counts;
        for post in posts {
            let controller = post.controller as usize;
            if controller < CONTROLLERS {
                counts[controller] = counts[controller].saturating_add(1);
            }
        }
        PostCounts { counts }
    }
}
