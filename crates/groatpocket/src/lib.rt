// The functions that a panel in C or Rust calls, by the names that it has for them. Each is a thin call of a proved function, named with
// the prefix gp_, with the promise of that function. The crate groatpocket_c exports them. A module for each stage.
#![tactic(auto)]

pub mod call_backdrop;
pub mod call_bands;
pub mod call_boxes;
pub mod call_check;
pub mod call_count;
pub mod call_draw;
pub mod call_fill;
pub mod call_fine;
pub mod call_frame;
pub mod call_hand_out;
pub mod call_lists;
pub mod call_outlines;
pub mod call_pixel;
pub mod call_ppm;
pub mod call_present;
pub mod call_recount;
pub mod call_sizes;
pub mod call_svg;
pub mod call_tile;
pub mod call_version;
pub mod floats;
