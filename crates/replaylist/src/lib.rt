// What the replay programs share: the lists of the Rust's answers, read case by case (places, rooms,
// rows, replay), and a module for each stage that lends a case's slices to it and compares. The
// lists' format is in tests/rust/README.md.
#![tactic(auto)]

mod case_backdrop;
mod case_count;
mod case_fill;
mod case_fine;
mod case_hand_out;
mod case_tile;
mod places;
mod replay;
mod rooms;
mod rows;

pub use hexlist::tally::Tally;
pub use replay::run;
