// Replays the list of the Rust's answers on counting, standard input.
#![tactic(auto)]

fn main() {
    replaylist::run(b"count");
}
