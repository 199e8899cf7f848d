// The limits of a scenario's numbers and counts. All are inclusive.

/// The first version of scenarios: agents without weights, and the plain ring.
pub const FIRST_VERSION: u32 = 1;

/// The latest version of scenarios.
pub const LATEST_VERSION: u32 = 2;

/// How many points the plain ring has.
pub const PLAIN_RING: u32 = 36;

/// How many points the fine ring has.
pub const FINE_RING: u32 = 60;

/// The most steps of a run.
pub const MOST_STEPS: u32 = 100_000;

/// The most agents of a scenario.
pub const MOST_AGENTS: u32 = 10_000;

/// The most wall segments of a scenario.
pub const MOST_SEGMENTS: u32 = 2_000;

/// The most scripted posts of a scenario.
pub const MOST_POSTS: u32 = 100_000;

/// The greatest number that a record can give an agent.
pub const GREATEST_AGENT: u32 = 9_999;

/// The greatest number of a controller.
pub const GREATEST_CONTROLLER: u32 = 15;

/// The greatest size of a coordinate of a starting position, of a segment's end or of a goal, in units.
pub const GREATEST_COORDINATE: u32 = 4_194_304;

/// The greatest speed or pace, and the greatest size of a velocity's coordinate, in units per step.
pub const GREATEST_SPEED: u32 = 16_384;

/// The greatest radius in units; the least is 1.
pub const GREATEST_RADIUS: u32 = 32_768;

/// The greatest neighbour distance in units.
pub const GREATEST_RANGE: u32 = 65_536;

/// The most neighbours that an agent may consider.
pub const MOST_NEIGHBOURS: u32 = 64;

/// The greatest time horizon in steps; the least is 1.
pub const GREATEST_HORIZON: u32 = 4_096;

/// The greatest weight of an agent; the least is 1.
pub const GREATEST_WEIGHT: u32 = 16;
