// Places in the order of their cells: neighbours by the cells around.
ghost use Rattle.std.specs.Prelude.{◌≡◌, ◌+◌, ◌*◌, ◌<◌, ◌≤◌, ◌^◌, ℕ, All, IfSome, IsTrue, length, map, slice_index_or, take};
ghost use Rattle.std.specs.List.Sorted.{IsPermutation};
ghost use Rattle.crowd_data.specs.declared.pair.Place.{Place};
ghost use Rattle.crowd_data.specs.Neighbours.{place_at};
ghost use Rattle.agent_kdtree.specs.CellKeys.{IsCellKey};
ghost use Rattle.agent_kdtree.specs.Cells.{IsOutOfRange, IsStart, IsGrid, IsInMesh, IsMesh, cell_at};
ghost use Rattle.agent_kdtree.specs.Windows.{IsPiece, IsWindow};
ghost use Rattle.agent_kdtree.specs.Gather.{IsQuery};
ghost use Rattle.agent_kdtree.specs.Keys.{low_half, seen_of_keys, seen_in_range};
ghost use Rattle.agent_kdtree.specs.Placed.{IsPlaced};

use crate::cell::{Mesh, first_line, last_line};
use crate::cell_sort::cell_of_key;
use crate::collect::collect;
use crate::query::Query;
use crowd_data::Place;

/// The columns and rows that reach into the range of a query.
#[derive(Clone, Copy)]
pub(crate) struct Window {
    pub left: u64,
    pub right: u64,
    pub bottom: u64,
    pub top: u64,
}

fn window_of(mesh: &Mesh, query: &Query) -> Window
    requires mesh { IsMesh mesh.now }
    requires query { IsQuery query.now }
    requires in_mesh { IsInMesh mesh.now query.now.at }
    ensures { IsWindow mesh.now query.now result }
{
    Window {
        left: first_line(mesh.low.x, mesh.width, query.at.x, query.range).min(mesh.columns),
        right: last_line(mesh.low.x, mesh.width, query.at.x, query.range).min(mesh.columns - 1),
        bottom: first_line(mesh.low.y, mesh.width, query.at.y, query.range).min(mesh.rows),
        top: last_line(mesh.low.y, mesh.width, query.at.y, query.range).min(mesh.rows - 1),
    }
}

// Where the cells from `first` up to `end` begin and end, behind the place `done`.
fn piece(order: &[u32], starts: &[u32], done: usize, first: u64, end: u64) -> Option<(usize, usize)>
    ensures { IfSome result (λ p. IsPiece order.now starts.now done first end p.0 p.1) }
{
    let from = match starts.get(first as usize) {
        Some(from) => *from as usize,
        None => return None,
    };
    let to = match starts.get(end as usize) {
        Some(to) => *to as usize,
        None => return None,
    };
    if done <= from && from <= to && to <= order.len() {
        Some((from, to))
    } else {
        None
    }
}

// Collects the places of some cells of a row. Those behind the place `done` in earlier cells are out of
// range.
fn sweep_row(
    places: &[Place],
    query: &Query,
    mesh: &Mesh,
    order: &[u32],
    starts: &[u32],
    first: u64,
    end: u64,
    done: usize,
    keys: &mut [u64],
    count: usize,
) -> Option<(usize, usize)>
    requires placed { All IsPlaced places.now }
    requires query { IsQuery query.now }
    requires grid { IsGrid places.now mesh.now order.now starts.now }
    requires earlier { (j : ℕ) → done ≤ j → j < length order.now → cell_at places.now mesh.now order.now j < first → IsOutOfRange places.now query.now (slice_index_or order.now j 0) }
    requires count { count ≤ length keys.old }
    requires so_far { seen_of_keys (take count keys.old) ≡ seen_in_range places.now query.now (take done order.now) }
    ensures len { length keys.new ≡ length keys.old }
    ensures value { IfSome result (λ p. seen_of_keys (take p.1 keys.new) ≡ seen_in_range places.now query.now (take p.0 order.now)) }
    ensures within { IfSome result (λ p. (p.0 ≤ length order.now) × (p.1 ≤ length keys.new)) }
    ensures rest { IfSome result (λ p. (j : ℕ) → p.0 ≤ j → j < length order.now → end ≤ cell_at places.now mesh.now order.now j) }
{
    let (from, to) = piece(order, starts, done, first, end)?;
    if keys.len() - count < to - from {
        return None;
    }
    let count = collect(places, query, &order[from..to], keys, count);
    Some((to, count))
}

/// Collects the places in the range of a query, and answers how many there are, if there is room for them.
pub(crate) fn sweep(
    places: &[Place],
    query: &Query,
    mesh: &Mesh,
    order: &[u32],
    starts: &[u32],
    keys: &mut [u64],
) -> Option<usize>
    requires placed { All IsPlaced places.now }
    requires query { IsQuery query.now }
    requires grid { IsGrid places.now mesh.now order.now starts.now }
    requires in_mesh { IsInMesh mesh.now query.now.at }
    ensures len { length keys.new ≡ length keys.old }
    ensures within { IfSome result (λ n. n ≤ length keys.new) }
    ensures value { IfSome result (λ n. seen_of_keys (take n keys.new) ≡ seen_in_range places.now query.now order.now) }
{
    let window = window_of(mesh, query);
    let mut done = 0;
    let mut count = 0;
    for row in window.bottom..window.top + 1 {
        let first = row * mesh.columns + window.left;
        let end = row * mesh.columns + window.right + 1;
        match sweep_row(
            places, query, mesh, order, starts, first, end, done, keys, count,
        ) {
            Some((to, more)) => {
                done = to;
                count = more;
            }
            None => return None,
        }
    }
    Some(count)
}

/// Writes a number at the places from `from` up to `to`.
pub(crate) fn fill(starts: &mut [u32], from: usize, to: usize, at: u32)
    requires order { from ≤ to }
    requires within { to ≤ length starts.old }
    ensures len { length starts.new ≡ length starts.old }
    ensures before { (cell : ℕ) → cell < from → slice_index_or starts.new cell 0 ≡ slice_index_or starts.old cell 0 }
    ensures inside { (cell : ℕ) → from ≤ cell → cell < to → slice_index_or starts.new cell 0 ≡ at }
{
    for cell in from..to {
        starts[cell] = at;
    }
}

// The cell of the key at a place.
fn cell_of_place(places: &[Place], mesh: &Mesh, keys: &[u64], at: usize) -> usize
    requires exists { at < length keys.now }
    requires cells { All (IsCellKey places.now mesh.now) keys.now }
    ensures value { result ≡ cell_at places.now mesh.now (map low_half keys.now) at }
    ensures small { result < 2 ^ 32 }
{
    let _ = places;
    let _ = mesh;
    cell_of_key(keys[at])
}

/// Writes where each cell begins, if the keys stand in the order of their cells.
pub(crate) fn find_starts(places: &[Place], mesh: &Mesh, keys: &[u64], starts: &mut [u32]) -> bool
    requires cells { All (IsCellKey places.now mesh.now) keys.now }
    requires few { length keys.now < 2 ^ 32 }
    ensures len { length starts.new ≡ length starts.old }
    ensures begins { IsTrue result → (cell : ℕ) → cell < length starts.new → IsStart places.now mesh.now (map low_half keys.now) (length keys.now) cell (slice_index_or starts.new cell 0) }
{
    let mut next = 0;
    for at in 0..keys.len() {
        let cell = cell_of_place(places, mesh, keys, at);
        if cell + 1 < next || starts.len() <= cell {
            return false;
        }
        fill(starts, next, cell + 1, at as u32);
        next = cell + 1;
    }
    let count = starts.len();
    fill(starts, next, count, keys.len() as u32);
    true
}
