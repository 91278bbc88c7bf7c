// The functions that a panel in C or Rust links: `rt lib` writes the archive. Each is a call of groatpocket's function of the same
// name, with the same promise. A slice is lent as a pointer and a length. A module for each of groatpocket's.
#![tactic(auto)]

pub mod call_backdrop;
pub mod call_bands;
pub mod call_boxes;
pub mod call_check;
pub mod call_count;
pub mod call_draw;
pub mod call_fill;
pub mod call_fine;
pub mod call_frame;
pub mod call_hand_out;
pub mod call_lists;
pub mod call_outlines;
pub mod call_pixel;
pub mod call_ppm;
pub mod call_present;
pub mod call_recount;
pub mod call_sizes;
pub mod call_svg;
pub mod call_tile;
pub mod call_version;
pub mod floats;
