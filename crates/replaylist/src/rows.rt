// Rows put into slices and compared with them, and answers. A row that isn't as long as its slice is
// never right: so a case that is too long for its rooms isn't equal.
use super::places::Row;
use hexlist::rows::{AS_BEFORE, length};
use hexlist::words::{Element, word};
use panel::kinds::{Refused, item, number};

// What a case showed: where the next one begins, and whether all was equal.
#[derive(Clone, Copy)]
pub struct Seen {
    pub next: usize,
    pub equal: bool,
}

// Whether n elements are all of the row.
fn whole(row: Row, n: usize) -> bool {
    length(row.code) == n
}

pub(crate) fn put<T: Element>(words: &[u32], row: Row, out: &mut [T]) -> bool {
    hexlist::rows::put(words, row.base, row.code, out);
    whole(row, out.len())
}

// The row that says how a slice is afterwards: the one before, where it is as it was.
fn told(before: Row, later: Row) -> Row {
    if later.code == AS_BEFORE {
        before
    } else {
        later
    }
}

pub(crate) fn same<T: Element>(words: &[u32], before: Row, later: Row, found: &[T]) -> bool {
    let row = told(before, later);
    whole(row, found.len()) & hexlist::rows::same(words, row.base, row.code, found)
}

// Whether an answer is the one at `at`: the refusal's number and the item's.
pub(crate) fn answers(words: &[u32], at: usize, a: Result<(), Refused>) -> bool {
    (number(a) == word(words, at, 0)) & (item(a) == word(words, at, 1))
}
