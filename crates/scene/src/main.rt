// A picture on paper: the built-in scene through all stages, as a binary Netpbm P6 file on standard output.
// docs/RULES.md, "A picture on paper". What it must write stands in stdout, and is the Rust's.
#![tactic(auto)]

mod drawing;
mod labels;
mod letters;
mod paths;
mod pen;
mod readings;
mod rooms;
mod stages;

fn main() {
    stages::draw();
}
