// What counting answers.
use panel::kinds::Running;
use panel::refusals::Refusal;

// A batch that is refused stops before the line, or at the path, that is refused: why, the item's number, and lines and
// references so far, which are carried on. A done one has them as its answer.
#[derive(Clone, Copy)]
pub struct Stopped {
    pub why: Refusal,
    pub item: u32,
    pub running: Running,
}
