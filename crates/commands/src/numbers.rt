// The commands' numbers and sizes in words, and where a tile's list starts, each named once in code;
// specs/Numbers.antt names them for the contracts. The numbers are ours: fine.rs has others, and its SOLID
// takes two words.
pub const END: u32 = 0;

pub const FILL: u32 = 1;

pub const SOLID: u32 = 2;

pub const COLOR: u32 = 3;

pub const JUMP: u32 = 4;

pub const FILL_WORDS: usize = 4;

pub const SOLID_WORDS: usize = 1;

pub const COLOR_WORDS: usize = 2;

pub const JUMP_WORDS: usize = 2;

// Words to a tile's region, and the word of it that its list starts at.
pub const TILE_WORDS: usize = 64;

pub const LIST_START: usize = 1;
