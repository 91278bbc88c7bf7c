// Kind 6: words, segments, pixels*; width, cols, rows, from, to.
use super::places::Row;
use super::rooms::{FLOATS, LONG_WORDS, PIXELS, room, taken};
use super::rows::Seen;
use super::{places, rows};
use hexlist::words::word;
use panel::kinds::Refused;

#[derive(Clone, Copy)]
struct Parts {
    commands: Row,
    segments: Row,
    pixels: Row,
    answer: usize,
    later: Row,
}

fn parts_at(words: &[u32], at: usize) -> Parts {
    let commands = places::first(words, at, 1, 9);
    let segments = places::follow(words, at, 2, commands);
    let pixels = places::follow(words, at, 3, segments);
    let answer = places::after(words, pixels);
    let later = places::first(words, answer, 2, 3);
    Parts {
        commands,
        segments,
        pixels,
        answer,
        later,
    }
}

// The stage, with the numbers of the case at `at`.
fn fine_at(
    words: &[u32],
    at: usize,
    commands: &[u32],
    segments: &[f32],
    pixels: &mut [u32],
) -> Result<(), Refused> {
    fine::fine(
        commands,
        segments,
        word(words, at, 4),
        word(words, at, 5),
        word(words, at, 6),
        word(words, at, 7),
        word(words, at, 8),
        pixels,
    )
}

// Whether the stage answers so.
fn right(
    words: &[u32],
    head: usize,
    at: Parts,
    commands: &mut [u32],
    segments: &mut [f32],
    pixels: &mut [u32],
) -> bool {
    let whole = rows::put(words, at.commands, commands)
        & rows::put(words, at.segments, segments)
        & rows::put(words, at.pixels, pixels);
    let a = fine_at(words, head, commands, segments, pixels);
    whole & rows::answers(words, at.answer, a) & rows::same(words, at.pixels, at.later, pixels)
}

pub(crate) fn case(words: &[u32], at: usize) -> Seen {
    let p = parts_at(words, at);
    let mut commands = room::<u32, LONG_WORDS>();
    let mut segments = room::<f32, FLOATS>();
    let mut pixels = room::<u32, PIXELS>();
    let nc = taken(p.commands, &commands);
    let ns = taken(p.segments, &segments);
    let np = taken(p.pixels, &pixels);
    Seen {
        next: places::after(words, p.later),
        equal: right(
            words,
            at,
            p,
            &mut commands[..nc],
            &mut segments[..ns],
            &mut pixels[..np],
        ),
    }
}
