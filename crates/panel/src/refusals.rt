// The refusals, each named once in code with its number. specs/Refusals.antt names the numbers for the contracts,
// and `number` and `all` say that the two agree. docs/RULES.md, "When the panel says no".
ghost use Rattle.std.specs.Prelude.{◌≡◌};
ghost use Rattle.panel.specs.Refusals.{no_of, refusal_numbers};

// The number of an answer that refuses nothing.
pub const DONE: u32 = 0;

// Why a call refuses. The numbers are those of the C interface.
#[derive(Clone, Copy, PartialEq, Eq)]
pub enum Refusal {
    // lengths that are no whole records, paired slices that differ, a range that is none
    NotWhole = 1,
    // too many paths, tiles or screen tiles
    TooMany = 2,
    // a box edge over the limit, or edges the wrong way round
    BadBox = 3,
    // a path's tiles before the end of those of the path before it, or past the tiles lent
    BadRange = 4,
    // a line number over the limit, when counting
    LineNumber = 5,
    // a coordinate not finite, or too large
    Coordinate = 6,
    // no such path; in a reference, no such line or one that the walk skips
    NoSuch = 7,
    // a step number or a tile's count over its limit
    CountOver = 8,
    // no room
    NoRoom = 9,
    // a step that is no number, or outside its path's box
    Outside = 10,
    // a backdrop or a running sum leaves i32
    SumOver = 11,
    // a segment end outside its tile
    Crooked = 12,
    // words or segments past the end of those lent
    PastEnd = 13,
    // an unknown command
    Unknown = 14,
    // too many commands
    TooLong = 15,
    // a screen too narrow, or too few pixels
    BadScreen = 16,
    // a picture's width or height outside 1..SIDE_MOST
    BadSize = 17,
    // no P6 file: another header, or bytes missing or left over
    BadFile = 18,
    // a pixel's column or row outside its tile
    OffTile = 19,
    // a fill's segment with an end outside its tile, or a y_edge not finite
    BadSegment = 20,
    // a text that is no path data of SVG
    BadText = 21,
    // a curve halved too often
    TooDeep = 22,
    // an outline that doesn't end where it began
    LeftOpen = 23,
}

impl Refusal {
    // Its number.
    pub fn number(self) -> u32
        ensures { result ≡ no_of self }
    {
        self as u32
    }
}

// All numbers, in order.
pub fn all() -> [u32; 24]
    ensures { result ≡ refusal_numbers }
{
    [
        DONE,
        Refusal::NotWhole as u32,
        Refusal::TooMany as u32,
        Refusal::BadBox as u32,
        Refusal::BadRange as u32,
        Refusal::LineNumber as u32,
        Refusal::Coordinate as u32,
        Refusal::NoSuch as u32,
        Refusal::CountOver as u32,
        Refusal::NoRoom as u32,
        Refusal::Outside as u32,
        Refusal::SumOver as u32,
        Refusal::Crooked as u32,
        Refusal::PastEnd as u32,
        Refusal::Unknown as u32,
        Refusal::TooLong as u32,
        Refusal::BadScreen as u32,
        Refusal::BadSize as u32,
        Refusal::BadFile as u32,
        Refusal::OffTile as u32,
        Refusal::BadSegment as u32,
        Refusal::BadText as u32,
        Refusal::TooDeep as u32,
        Refusal::LeftOpen as u32,
    ]
}
