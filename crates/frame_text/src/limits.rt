// The limits of the numbers of a frame, beside those of a scenario.

/// The greatest size of a coordinate of a body's position, in units.
pub const GREATEST_PLACE: u32 = 2_147_483_647;

/// The greatest relief.
pub const GREATEST_RELIEF: u32 = 262_143;

/// The greatest place of a post among the posts of its controller.
pub const GREATEST_SEQ: u32 = 4_294_967_295;
