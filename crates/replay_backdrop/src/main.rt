// Replays the list of the Rust's answers on backdrops, standard input.
#![tactic(auto)]

fn main() {
    replaylist::run(b"backdrop");
}
