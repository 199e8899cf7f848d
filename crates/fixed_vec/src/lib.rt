//! Exact plane geometry in whole numbers: vectors, half-planes, rational points, roots and quotients,
//! and a list whose room is taken beforehand.
#![tactic(auto)]

mod half_plane;
mod list;
mod point;
mod quotients;
mod roots;
mod vector;

pub use half_plane::{HalfPlane, triple};
pub use list::{List, NoMemory};
pub use point::{Point, side};
pub use quotients::{div_down, div_up};
pub use roots::{ceil_root, floor_root};
pub use vector::{V2, cross, dot, minus, perp, plus};
