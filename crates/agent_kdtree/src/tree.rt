// The tree over the places of all agents.
ghost use Rattle.crowd_data.specs.declared.limits.TheConstants.{GREATEST_RANGE, MOST_NEIGHBOURS};
ghost use Rattle.std.specs.Prelude.{◌≡◌, ◌↔◌, ◌<◌, ◌≤◌, ◌^◌, ◌*◌, ◌/◌, ◌+◌, [], All, IfOk, IsTrue, length, map};
ghost use Rattle.crowd_data.specs.Neighbours.{MissesNear, neighbours, numbers};
ghost use Rattle.agent_kdtree.specs.declared.near.Near.{Near};
ghost use Rattle.agent_kdtree.specs.Placed.{IsPlaced};
ghost use Rattle.agent_kdtree.specs.Seen.{seen_of};
ghost use Rattle.agent_kdtree.specs.Stands.{HasRoomFor, StandsFor};

use crate::bounds::{Bounds, empty_bounds};
use crate::layout::Layout;
use crate::missed::{lists_all_within, misses_below, near_distance_below};
use crate::near::Near;
use crate::node::{Cut, build, search};
use crate::query::query_for;
use arrayvec::ArrayVec;
use crowd_data::Place;
use fixed_vec::NoMemory;
use std::alloc::Global;

/// The places of all agents as a kd-tree: their numbers, by halves on alternating coordinates, with leaves
/// of at most 10, and a box around each half. Beside it the places are laid out by square cells.
#[derive(Drop)]
pub struct Tree {
    order: Vec<u32>,
    boxes: Vec<Bounds>,
    age: u32,
    layout: Layout,
}

// Agents move little in a step. So the numbers are sorted anew at each 16th rebuild, and the boxes at each.
const STEPS_BETWEEN_SORTS: u32 = 16;

// Where the cells show the neighbours, the tree is seldom asked.
const STEPS_BETWEEN_SORTS_BESIDE_CELLS: u32 = 64;

/// The numbers 0, 1 and so on, below `count`.
pub(crate) fn numbered(alloc: Global, count: usize) -> Result<Vec<u32>, NoMemory>
    requires { count < 2 ^ 32 }
    ensures { IfOk result (λ order. order.items ≡ numbers count) }
{
    let Ok(mut order) = Vec::with_capacity(alloc, count) else {
        return Err(NoMemory);
    };
    for k in 0..count {
        order.push_reserved(k as u32);
    }
    Ok(order)
}

// So many boxes that cover nothing.
fn empty_boxes(alloc: Global, count: usize) -> Result<Vec<Bounds>, NoMemory>
    ensures { IfOk result (λ boxes. length boxes.items ≡ count) }
{
    let Ok(mut boxes) = Vec::with_capacity(alloc, count) else {
        return Err(NoMemory);
    };
    for _ in 0..count {
        boxes.push_reserved(empty_bounds());
    }
    Ok(boxes)
}

impl Tree {
    /// Takes all memory that a tree over as many places needs. It stands for no places before the first
    /// `rebuild`. `NoMemory` comes only where memory runs out (documented, not proved).
    pub fn open(alloc: Global, places: &[Place]) -> Result<Tree, NoMemory>
        requires { length places.now < 2 ^ 32 }
        ensures { IfOk result (λ t. HasRoomFor t (length places.now)) }
    {
        let order = numbered(alloc, places.len())?;
        let boxes = empty_boxes(alloc, 2 * places.len() / 5 + 1)?;
        let layout = Layout::open(alloc, places.len())?;
        Ok(Tree {
            order,
            boxes,
            age: 0,
            layout,
        })
    }

    /// A tree that stands for these places. `NoMemory` comes only where memory runs out (documented, not
    /// proved).
    pub fn over(alloc: Global, places: &[Place]) -> Result<Tree, NoMemory>
        requires few { length places.now < 2 ^ 32 }
        requires placed { All IsPlaced places.now }
        ensures { IfOk result (λ tree. StandsFor tree places.now) }
    {
        let mut tree = Tree::open(alloc, places)?;
        tree.rebuild(places);
        Ok(tree)
    }

    /// Makes the tree stand for these places, as many as it was opened for. It takes no memory.
    pub fn rebuild(&mut self, places: &[Place])
        requires room { HasRoomFor self.old (length places.now) }
        requires placed { All IsPlaced places.now }
        ensures stands { StandsFor self.new places.now }
    {
        let cut = if self.age == 0 {
            Cut::Across
        } else {
            Cut::Kept
        };
        let steps = if self.layout.ready {
            STEPS_BETWEEN_SORTS_BESIDE_CELLS
        } else {
            STEPS_BETWEEN_SORTS
        };
        self.age = (self.age % steps + 1) % steps;
        build(places, &mut self.order, &mut self.boxes, cut);
        self.layout.rebuild(places, &self.order, &self.boxes);
    }

    /// The neighbours of an agent: the others at a squared distance below `range * range`, in the order
    /// of squared distance and then of number, the first `most` of them. The range is at most 65,536,
    /// and `most` at most 64.
    pub fn nearest(&self, places: &[Place], who: u32, range: u32, most: u32) -> ArrayVec<Near, 64>
        requires stands { StandsFor self.now places.now }
        requires who { who < length places.now }
        requires range { range ≤ GREATEST_RANGE }
        requires most { most ≤ MOST_NEIGHBOURS }
        ensures { map seen_of result.items ≡ neighbours places.now who range most }
    {
        let mut best = ArrayVec::new();
        self.find(places, who, range, most, &mut best);
        best
    }

    /// Puts the neighbours of an agent into an empty list, as `nearest` answers them: by the cells around
    /// it, or else by the whole tree.
    pub fn find(
        &self,
        places: &[Place],
        who: u32,
        range: u32,
        most: u32,
        best: &mut ArrayVec<Near, 64>,
    )
        requires stands { StandsFor self.now places.now }
        requires who { who < length places.now }
        requires range { range ≤ GREATEST_RANGE }
        requires most { most ≤ MOST_NEIGHBOURS }
        requires empty { best.old.items ≡ [] }
        ensures { map seen_of best.new.items ≡ neighbours places.now who range most }
    {
        if most == 0 {
            return;
        }
        // Where as many as are asked for are found within a shorter range, they are the neighbours.
        let narrow_range = self.layout.guess(range, most);
        if self
            .layout
            .nearest(places, who, narrow_range, range, most, best)
        {
            return;
        }
        let wider_range = range.min(2 * narrow_range);
        if self
            .layout
            .nearest(places, who, wider_range, range, most, best)
        {
            return;
        }
        let query = query_for(places, who, range, most);
        search(places, &query, &self.order, &self.boxes, 0, best);
    }

    /// Whether some other near agent is not in the list: one that the agent could touch within a step.
    pub fn misses_near(&self, places: &[Place], who: u32, near: &[Near]) -> bool
        requires stands { StandsFor self.now places.now }
        requires who { who < length places.now }
        ensures { IsTrue result ↔ MissesNear places.now who (map (λ (n : Near). n.agent) near.now) }
    {
        misses_below(places, who, near, &self.order, &self.boxes)
    }

    /// Whether some other near agent is not among the neighbours, which are handed in as they were found.
    pub fn is_crowded(
        &self,
        places: &[Place],
        who: u32,
        range: u32,
        most: u32,
        near: &[Near],
    ) -> bool
        requires stands { StandsFor self.now places.now }
        requires who { who < length places.now }
        requires range { range ≤ GREATEST_RANGE }
        requires near { map seen_of near.now ≡ neighbours places.now who range most }
        ensures { IsTrue result ↔ MissesNear places.now who (map (λ (n : Near). n.agent) near.now) }
    {
        let touching = near_distance_below(places, who, &self.order, &self.boxes);
        !lists_all_within(near, range, most, touching * touching)
            && self.misses_near(places, who, near)
    }
}
