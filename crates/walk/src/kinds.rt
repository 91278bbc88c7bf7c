// What a line is on its way over the tiles: its numbers, a struct for each stage of
// path_count.rs, lines 22 to 52. `setup` makes them.
use util::Vec2;

// The ends in the order of y, as they are and in tiles.
#[derive(Clone, Copy)]
pub struct Ends {
    pub is_down: bool,
    pub xy0: Vec2,
    pub xy1: Vec2,
    pub s0: Vec2,
    pub s1: Vec2,
}

#[derive(Clone, Copy)]
pub struct Counts {
    pub count_x: u32,
    pub count: u32,
}

// What a and b are made of, and the first tile.
#[derive(Clone, Copy)]
pub struct Slope {
    pub dx: f32,
    pub dy: f32,
    pub idxdy: f32,
    pub is_positive_slope: bool,
    pub sign: f32,
    pub c: f32,
    pub y0: f32,
    pub ytop: f32,
    pub x0: f32,
}

// What a step is computed from: all that a loop over steps needs of the walk. on_top says whether
// the line starts on its first tile's top edge.
#[derive(Clone, Copy)]
pub struct Pace {
    pub a: f32,
    pub b: f32,
    pub x0: f32,
    pub y0: f32,
    pub sign: f32,
    pub on_top: bool,
}

#[derive(Clone, Copy)]
pub struct Walk {
    pub e: Ends,
    pub k: Counts,
    pub is_positive_slope: bool,
    pub pace: Pace,
}
