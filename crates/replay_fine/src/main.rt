// Replays the list of the Rust's answers on fine, standard input.
#![tactic(auto)]

fn main() {
    replaylist::run(b"fine");
}
