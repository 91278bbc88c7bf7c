// Kind 4: path_nos, coords, paths, stored, refs, segments*, tags*; from, to.
use super::places::Row;
use super::rooms::{FLOATS, WORDS, room, taken};
use super::rows::Seen;
use super::{places, rows};
use hexlist::words::word;

#[derive(Clone, Copy)]
struct Parts {
    path_nos: Row,
    coords: Row,
    paths: Row,
    stored: Row,
    refs: Row,
    segments: Row,
    tags: Row,
    answer: usize,
    later: Row,
    tags_later: Row,
}

fn parts_at(words: &[u32], at: usize) -> Parts {
    let path_nos = places::first(words, at, 1, 10);
    let coords = places::follow(words, at, 2, path_nos);
    let paths = places::follow(words, at, 3, coords);
    let stored = places::follow(words, at, 4, paths);
    let refs = places::follow(words, at, 5, stored);
    let segments = places::follow(words, at, 6, refs);
    let tags = places::follow(words, at, 7, segments);
    let answer = places::after(words, tags);
    let later = places::first(words, answer, 2, 4);
    let tags_later = places::follow(words, answer, 3, later);
    Parts {
        path_nos,
        coords,
        paths,
        stored,
        refs,
        segments,
        tags,
        answer,
        later,
        tags_later,
    }
}

// The rest, filled.
fn put(
    words: &[u32],
    at: Parts,
    stored: &mut [u32],
    refs: &mut [u32],
    segments: &mut [f32],
    tags: &mut [u32],
) -> bool {
    rows::put(words, at.stored, stored)
        & rows::put(words, at.refs, refs)
        & rows::put(words, at.segments, segments)
        & rows::put(words, at.tags, tags)
}

// What is lent to be changed, compared afterwards.
fn same(words: &[u32], at: Parts, segments: &[f32], tags: &[u32]) -> bool {
    rows::same(words, at.segments, at.later, segments)
        & rows::same(words, at.tags, at.tags_later, tags)
}

// Whether the stage answers so, once path_nos, coords and paths are there.
fn right(
    words: &[u32],
    head: usize,
    at: Parts,
    path_nos: &[u32],
    coords: &[f32],
    paths: &[u32],
    stored: &mut [u32],
    refs: &mut [u32],
    segments: &mut [f32],
    tags: &mut [u32],
) -> bool {
    let whole = put(words, at, stored, refs, segments, tags);
    let a = path_tiling::tile(
        word(words, head, 8),
        word(words, head, 9),
        path_nos,
        coords,
        paths,
        stored,
        refs,
        segments,
        tags,
    );
    whole & rows::answers(words, at.answer, a) & same(words, at, segments, tags)
}

// The same, with rooms for the other four.
fn right_of(
    words: &[u32],
    head: usize,
    at: Parts,
    path_nos: &[u32],
    coords: &[f32],
    paths: &[u32],
) -> bool {
    let mut stored = room::<u32, WORDS>();
    let mut refs = room::<u32, WORDS>();
    let mut segments = room::<f32, FLOATS>();
    let mut tags = room::<u32, WORDS>();
    let ni = taken(at.stored, &stored);
    let nr = taken(at.refs, &refs);
    let ns = taken(at.segments, &segments);
    let nt = taken(at.tags, &tags);
    right(
        words,
        head,
        at,
        path_nos,
        coords,
        paths,
        &mut stored[..ni],
        &mut refs[..nr],
        &mut segments[..ns],
        &mut tags[..nt],
    )
}

// Fills path_nos, coords and paths.
fn lines_right(
    words: &[u32],
    head: usize,
    at: Parts,
    path_nos: &mut [u32],
    coords: &mut [f32],
    paths: &mut [u32],
) -> bool {
    let whole = rows::put(words, at.path_nos, path_nos)
        & rows::put(words, at.coords, coords)
        & rows::put(words, at.paths, paths);
    whole & right_of(words, head, at, path_nos, coords, paths)
}

pub(crate) fn case(words: &[u32], at: usize) -> Seen {
    let p = parts_at(words, at);
    let mut path_nos = room::<u32, WORDS>();
    let mut coords = room::<f32, FLOATS>();
    let mut paths = room::<u32, WORDS>();
    let nn = taken(p.path_nos, &path_nos);
    let nc = taken(p.coords, &coords);
    let np = taken(p.paths, &paths);
    Seen {
        next: places::after(words, p.tags_later),
        equal: lines_right(
            words,
            at,
            p,
            &mut path_nos[..nn],
            &mut coords[..nc],
            &mut paths[..np],
        ),
    }
}
