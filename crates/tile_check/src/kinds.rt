// What a check of another's tables answers.

// The first entry at fault, by the table that it stands in.
#[derive(Clone, Copy, PartialEq, Eq)]
pub enum Fault {
    Reference(u32),
    Count(u32),
    Backdrop(u32),
    Slots(u32),
}
