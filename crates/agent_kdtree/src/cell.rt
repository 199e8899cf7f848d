// Square cells of the plane.
ghost use Rattle.crowd_data.specs.declared.limits.TheConstants.{GREATEST_RANGE};
ghost use Rattle.std.specs.Prelude.{◌≡◌, ◌<◌, ◌≤◌, ◌^◌, ℤ, pos, ◌+ℤ◌, ◌-ℤ◌, ◌≤ℤ◌, IfSome, unsigned_abs};
ghost use Rattle.fixed_vec.specs.declared.vector.V2.{V2};
ghost use Rattle.fixed_vec.specs.Vector.{IsBelow};
ghost use Rattle.agent_kdtree.specs.Boxes.{IsBounds, IsInBounds};
ghost use Rattle.agent_kdtree.specs.Cells.{IsInMesh, IsMesh, cell_of, line_of};

use crate::bounds::Bounds;
use fixed_vec::{V2, floor_root};

/// How a part of the plane is cut into square cells: where its lower left corner is, how wide a cell is,
/// and how many columns and rows of cells there are.
#[derive(Clone, Copy)]
pub(crate) struct Mesh {
    pub low: V2,
    pub width: u64,
    pub columns: u64,
    pub rows: u64,
}

/// A mesh of no cells.
pub(crate) fn no_mesh() -> Mesh {
    Mesh {
        low: V2 { x: 0, y: 0 },
        width: 1,
        columns: 0,
        rows: 0,
    }
}

// In which column or row of this width a coordinate lies, beyond an edge.
#[tactic(auto, unfolding(crate::specs::Cells::line_of))]
fn line(edge: i64, width: u64, z: i64) -> u64
    requires width { 0 < width }
    requires edge { unsigned_abs edge < 2 ^ 33 }
    requires z { unsigned_abs z < 2 ^ 33 }
    ensures value { result ≡ line_of edge width z }
    ensures small { result < 2 ^ 34 }
{
    z.abs_diff(edge) / width
}

fn before(at: i64, range: u32) -> i64
    requires at { unsigned_abs at < 2 ^ 31 }
    requires range { range ≤ GREATEST_RANGE }
    ensures value { result ≡ at -ℤ pos range }
    ensures small { unsigned_abs result < 2 ^ 32 }
{
    at - i64::from(range)
}

fn after(at: i64, range: u32) -> i64
    requires at { unsigned_abs at < 2 ^ 31 }
    requires range { range ≤ GREATEST_RANGE }
    ensures value { result ≡ at +ℤ pos range }
    ensures small { unsigned_abs result < 2 ^ 32 }
{
    at + i64::from(range)
}

/// The first column or row of those that reach nearer than `range` to a coordinate.
pub(crate) fn first_line(edge: i64, width: u64, at: i64, range: u32) -> u64
    requires width { 0 < width }
    requires edge { unsigned_abs edge < 2 ^ 31 }
    requires at { unsigned_abs at < 2 ^ 31 }
    requires range { range ≤ GREATEST_RANGE }
    ensures { (z : ℤ) → edge ≤ℤ z → line_of edge width z < result → (z +ℤ pos range) ≤ℤ at }
{
    let from = before(at, range);
    if from < edge {
        0
    } else {
        line(edge, width, from)
    }
}

/// The last column or row of those that reach nearer than `range` to a coordinate.
pub(crate) fn last_line(edge: i64, width: u64, at: i64, range: u32) -> u64
    requires width { 0 < width }
    requires edge { unsigned_abs edge < 2 ^ 31 }
    requires at { unsigned_abs at < 2 ^ 31 }
    requires above { edge ≤ℤ at }
    requires range { range ≤ GREATEST_RANGE }
    ensures { (z : ℤ) → edge ≤ℤ z → result < line_of edge width z → (at +ℤ pos range) ≤ℤ z }
{
    line(edge, width, after(at, range))
}

/// The number of the cell of a point.
pub(crate) fn cell(mesh: &Mesh, at: V2) -> u64
    requires mesh { IsMesh mesh.now }
    requires in_mesh { IsInMesh mesh.now at }
    requires at { IsBelow at (2 ^ 31) }
    ensures value { result ≡ cell_of mesh.now at }
    ensures small { result < 2 ^ 32 }
{
    let row = line(mesh.low.y, mesh.width, at.y);
    let column = line(mesh.low.x, mesh.width, at.x);
    row * mesh.columns + column
}

// How wide the cells are that hold two places each on average.
fn width_for(across: u64, up: u64, count: u64) -> u64
    requires across { across < 2 ^ 32 }
    requires up { up < 2 ^ 32 }
    requires count { count < 2 ^ 32 }
    ensures some { 0 < result }
{
    floor_root((across * up) as u128 * 2 / (count as u128 + 1)) / 2 * 2 + 1
}

/// A mesh for so many places in a box.
pub(crate) fn mesh_over(bounds: &Bounds, count: u64) -> Option<Mesh>
    requires bounds { IsBounds bounds.now }
    requires count { count < 2 ^ 32 }
    ensures mesh { IfSome result IsMesh }
    ensures in_mesh { IfSome result (λ m. (v : V2) → IsInBounds bounds.now v → IsInMesh m v) }
{
    if bounds.high.x < bounds.low.x || bounds.high.y < bounds.low.y {
        return None;
    }
    let across = bounds.high.x.abs_diff(bounds.low.x);
    let up = bounds.high.y.abs_diff(bounds.low.y);
    let width = width_for(across, up, count);
    let columns = line(bounds.low.x, width, bounds.high.x) + 1;
    let rows = line(bounds.low.y, width, bounds.high.y) + 1;
    if columns > 65535 || rows > 65535 {
        return None;
    }
    Some(Mesh {
        low: bounds.low,
        width,
        columns,
        rows,
    })
}
