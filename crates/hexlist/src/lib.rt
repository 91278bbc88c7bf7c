// Lists of words in hexadecimal, as the replay programs read them: a text of words, taken in byte by
// byte (scan), its reading from standard input (input), what a word stands for (words), rows of words
// that stand for a slice (rows), and what a replay found (tally). Nothing here belongs to a stage.
#![tactic(auto)]

pub mod input;
pub mod rows;
pub mod scan;
pub mod tally;
pub mod words;
