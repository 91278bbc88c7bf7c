// The widths of the records lent, and the places of a path's and a paint's words, each named once in
// code. specs/Widths.antt names them for the contracts, and the function at the end says that the two
// agree. docs/RULES.md, "How the records are lent".
ghost use Rattle.std.specs.Prelude.{◌≡◌};
ghost use Rattle.panel.specs.Widths.{widths};

pub const PATH_WORDS: usize = 6;

pub const LINE_FLOATS: usize = 4;

pub const REF_WORDS: usize = 2;

// A reference's second word is its slice number times this, plus its step number.
pub const STEP_RANGE: u32 = 65536;

pub const SEGMENT_FLOATS: usize = 5;

pub const PAINT_WORDS: usize = 2;

// A path's words: its box's left, top, right and bottom edge, its first tile, and its beam number.
pub const PATH_X0: usize = 0;

pub const PATH_Y0: usize = 1;

pub const PATH_X1: usize = 2;

pub const PATH_Y1: usize = 3;

pub const PATH_FIRST: usize = 4;

pub const PATH_BEAM: usize = 5;

// A paint's words: its path's colour, and its fill rule.
pub const PAINT_COLOUR: usize = 0;

pub const PAINT_RULE: usize = 1;

// All of them.
pub fn all() -> [usize; 14]
    ensures { result ≡ widths }
{
    [
        PATH_WORDS,
        LINE_FLOATS,
        REF_WORDS,
        STEP_RANGE as usize,
        SEGMENT_FLOATS,
        PAINT_WORDS,
        PATH_X0,
        PATH_Y0,
        PATH_X1,
        PATH_Y1,
        PATH_FIRST,
        PATH_BEAM,
        PAINT_COLOUR,
        PAINT_RULE,
    ]
}
