// Kind 5: segments, area*; first, number, even_odd, backdrop, x_tile, y_tile.
use super::places::Row;
use super::rooms::{FLOATS, room, taken};
use super::rows::Seen;
use super::{places, rows};
use hexlist::words::{Element, word};
use panel::kinds::Refused;

#[derive(Clone, Copy)]
struct Parts {
    segments: Row,
    area: Row,
    answer: usize,
    later: Row,
}

fn parts_at(words: &[u32], at: usize) -> Parts {
    let segments = places::first(words, at, 1, 9);
    let area = places::follow(words, at, 2, segments);
    let answer = places::after(words, area);
    let later = places::first(words, answer, 2, 3);
    Parts {
        segments,
        area,
        answer,
        later,
    }
}

// The stage, with the numbers of the case at `at`.
fn fill_at(words: &[u32], at: usize, segments: &[f32], area: &mut [f32]) -> Result<(), Refused> {
    coverage::fill(
        segments,
        word(words, at, 3),
        word(words, at, 4),
        word(words, at, 5) != 0,
        i32::of_word(word(words, at, 6)),
        f32::of_word(word(words, at, 7)),
        f32::of_word(word(words, at, 8)),
        area,
    )
}

// Whether the stage answers so.
fn right(words: &[u32], head: usize, at: Parts, segments: &mut [f32], area: &mut [f32]) -> bool {
    let whole = rows::put(words, at.segments, segments) & rows::put(words, at.area, area);
    let a = fill_at(words, head, segments, area);
    whole & rows::answers(words, at.answer, a) & rows::same(words, at.area, at.later, area)
}

pub(crate) fn case(words: &[u32], at: usize) -> Seen {
    let p = parts_at(words, at);
    let mut segments = room::<f32, FLOATS>();
    let mut area = room::<f32, FLOATS>();
    let ns = taken(p.segments, &segments);
    let na = taken(p.area, &area);
    Seen {
        next: places::after(words, p.later),
        equal: right(words, at, p, &mut segments[..ns], &mut area[..na]),
    }
}
