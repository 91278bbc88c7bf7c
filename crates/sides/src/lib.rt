// A tile's sides and its number of pixels: fine.rs, lines 9 to 11. specs/Tile.antt names them for
// the contracts.
#![tactic(auto)]

pub const TILE_WIDTH: usize = 16;

pub const TILE_HEIGHT: usize = 16;

pub const TILE_SIZE: usize = TILE_WIDTH * TILE_HEIGHT;
