// Replays the list of answers on handing out slots, standard input.
#![tactic(auto)]

fn main() {
    replaylist::run(b"hand_out");
}
