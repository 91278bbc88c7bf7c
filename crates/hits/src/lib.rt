// Where the steps of a walk fall, and the words that note them: definitions in specs/, laws in proofs/. Counting's parts
// tell each other of a line's steps in these.
#![tactic(auto)]

// So many steps of a line are noted by its check; those past them are walked again by its write.
pub const NOTE_WORDS: u32 = 256;

// The same, as an array's length.
pub const NOTE_ROOM: usize = NOTE_WORDS as usize;
