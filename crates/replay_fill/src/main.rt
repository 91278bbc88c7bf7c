// Replays the list of the Rust's answers on coverage, standard input.
#![tactic(auto)]

fn main() {
    replaylist::run(b"fill");
}
