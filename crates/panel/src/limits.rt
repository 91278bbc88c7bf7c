// The limits, each named once in code. specs/Limits.antt names them for the contracts, and the
// functions at the end say that the two agree. docs/RULES.md, "When the panel says no".
ghost use Rattle.std.specs.Prelude.{◌≡◌};
ghost use Rattle.panel.specs.Limits.{limits, coord_most};

// Paths, tiles (and screen tiles), a box edge in tiles.
pub const MOST_PATHS: u32 = 4096;

pub const MOST_TILES: u32 = 1048576;

pub const EDGE_MOST: u32 = 4096;

// Lines have numbers below this, and so have a line's steps; a tile's count is below it before it
// is counted once more.
pub const MOST_LINES: u32 = 65536;

pub const MOST_STEPS: u32 = 65536;

pub const MOST_COUNT: u32 = 65536;

// References, and slots.
pub const MOST_SLOTS: u32 = 16777216;

// Commands on one screen tile, END not counted.
pub const MOST_COMMANDS: u32 = 4096;

// A picture's width, and its height, in pixels.
pub const SIDE_MOST: u32 = 16384;

// A coordinate's size.
pub const COORD_MOST: f32 = 65536.0;

// All of them, the coordinate's apart.
pub fn all() -> [u32; 9]
    ensures { result ≡ limits }
{
    [
        MOST_PATHS,
        MOST_TILES,
        EDGE_MOST,
        MOST_LINES,
        MOST_STEPS,
        MOST_COUNT,
        MOST_SLOTS,
        MOST_COMMANDS,
        SIDE_MOST,
    ]
}

pub fn coord_most() -> f32
    ensures { result ≡ coord_most }
{
    COORD_MOST
}
