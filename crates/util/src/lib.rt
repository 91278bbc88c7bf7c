// What the stages use of util.rs: Vec2 with its operators as methods by value, `span`, and the
// constants of util.rs and of the tile; and the choice of two floats as a call. The definitions stand in specs/.
#![tactic(auto)]

ghost use Rattle.std.specs.Prelude.{◌≡◌};
ghost use Rattle.util.specs.Vec.{new_of, add_of, sub_of, scale_of};
ghost use Rattle.util.specs.Span.{span_of};
ghost use Rattle.util.specs.Constants.{one_minus_ulp, robust_epsilon, tile_scale, tile_side};

// The largest float below 1: util.rs, line 220.
pub const ONE_MINUS_ULP: f32 = 0.99999994;

// What a is moved by where the last step would miss its column: util.rs, line 228.
pub const ROBUST_EPSILON: f32 = 2e-7;

// A tile's width and height in pixels, as a float and as a whole number, and 1 / 16.
pub const TILE_SIDE: f32 = 16.0;

pub const TILE_PIXELS: u32 = 16;

pub const TILE_SCALE: f32 = 0.0625;

// The constants are those of specs/Constants.antt, bit for bit: that is proved of a function for each.
pub fn one_minus_ulp() -> f32
    ensures { result ≡ one_minus_ulp }
{
    ONE_MINUS_ULP
}

pub fn robust_epsilon() -> f32
    ensures { result ≡ robust_epsilon }
{
    ROBUST_EPSILON
}

pub fn tile_side() -> f32
    ensures { result ≡ tile_side }
{
    TILE_SIDE
}

pub fn tile_scale() -> f32
    ensures { result ≡ tile_scale }
{
    TILE_SCALE
}

// The same number whole and as a float.
pub fn tile_pixels() -> f32
    ensures { result ≡ tile_side }
{
    TILE_PIXELS as f32
}

// A point, or a way from one point to another.
#[derive(Clone, Copy)]
pub struct Vec2 {
    pub x: f32,
    pub y: f32,
}

impl Vec2 {
    pub fn new(x: f32, y: f32) -> Self
        ensures { result ≡ new_of x y }
    {
        Self { x, y }
    }

    pub fn add(self, rhs: Self) -> Self
        ensures { result ≡ add_of self rhs }
    {
        Self {
            x: self.x + rhs.x,
            y: self.y + rhs.y,
        }
    }

    pub fn subtract(self, rhs: Self) -> Self
        ensures { result ≡ sub_of self rhs }
    {
        Self {
            x: self.x - rhs.x,
            y: self.y - rhs.y,
        }
    }

    pub fn scale(self, k: f32) -> Self
        ensures { result ≡ scale_of self k }
    {
        Self {
            x: self.x * k,
            y: self.y * k,
        }
    }
}

// How many whole tiles the way from a to b touches, at least one: util.rs, line 196.
pub fn span(a: f32, b: f32) -> u32
    ensures { result ≡ span_of a b }
{
    float32::to_u32(float32::max(
        float32::ceil(float32::max(a, b)) - float32::floor(float32::min(a, b)),
        1.0,
    ))
}
