// The wall segments of a scenario in blocks of near ones.
ghost use Rattle.std.specs.Prelude.{◌≡◌, ◌+◌, ◌*◌, ◌/◌, ◌≤◌, ◌<◌, IfOk, length};
ghost use Rattle.std.specs.List.Sorted.{IsPermutation};
ghost use Rattle.agent_step.specs.WallBlocks.{IsInBlocks, StandsForWalls, block_at};

use crate::extent::{Extent, extent_of};
use crowd_data::Segment;
use fixed_vec::{List, NoMemory, floor_root};
use std::alloc::Global;

/// The wall segments of a scenario, in blocks of near ones with a box around each, so that an agent looks
/// at the blocks within its reach alone. They are made once, since no step changes them.
#[derive(Drop)]
pub struct WallBlocks {
    pub(crate) segments: Vec<Segment>,
    pub(crate) boxes: List<Extent>,
}

/// How many segments a block has. The last one may have fewer.
const IN_BLOCK: usize = 16;

/// The block with this number.
pub(crate) fn block(segments: &[Segment], k: usize) -> &[Segment]
    requires { 16 * k ≤ length segments.now }
    ensures { result.now ≡ block_at segments.now k }
{
    let from = IN_BLOCK * k;
    let to = if segments.len() - from < IN_BLOCK {
        segments.len()
    } else {
        from + IN_BLOCK
    };
    &segments[from..to]
}

// Orders segments by strips of the plane and along each, so that those that follow each other are near.
// Nothing rests on it but speed.
fn order_by_strips(segments: &mut [Segment])
    ensures { IsPermutation segments.old segments.new }
{
    let all = extent_of(segments);
    let across = all.high.x.abs_diff(all.low.x);
    let up = all.high.y.abs_diff(all.low.y);
    let blocks = (segments.len() / IN_BLOCK + 1) as u64;
    let height = floor_root((across.saturating_mul(up) / blocks) as u128).max(1);
    segments.sort_unstable_by_key(|segment| {
        (segment.a.y.abs_diff(all.low.y) / height.max(1), segment.a.x)
    });
}

// The boxes of all blocks.
fn boxes_of(alloc: Global, segments: &[Segment]) -> Result<List<Extent>, NoMemory>
    ensures { IfOk result (λ boxes. IsInBlocks segments.now boxes.items) }
{
    let count = segments.len().div_ceil(IN_BLOCK);
    let mut boxes = List::with_room(alloc, count)?;
    for k in 0..count {
        boxes.push(extent_of(block(segments, k)));
    }
    Ok(boxes)
}

impl WallBlocks {
    /// The blocks of these segments. `NoMemory` comes only where memory runs out (documented, not proved).
    pub fn open(alloc: Global, segments: &[Segment]) -> Result<WallBlocks, NoMemory>
        ensures { IfOk result (λ w. StandsForWalls w segments.now) }
    {
        let Ok(mut ordered) = segments.to_vec(alloc) else {
            return Err(NoMemory);
        };
        order_by_strips(&mut ordered);
        let boxes = boxes_of(alloc, &ordered)?;
        Ok(WallBlocks {
            segments: ordered,
            boxes,
        })
    }
}
