// Replays the list of the Rust's answers on tiling, standard input.
#![tactic(auto)]

fn main() {
    replaylist::run(b"tiling");
}
