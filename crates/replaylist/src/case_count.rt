// Kind 1: path_nos, coords, paths, backdrops*, counts*, refs*; end, lines, made.
use super::places::Row;
use super::rooms::{FLOATS, INTS, WORDS, room, taken};
use super::rows::Seen;
use super::{places, rows};
use hexlist::words::word;
use panel::kinds::Running;
use panel::refusals::DONE;
use path_count::Stopped;

// The slices that are lent to be changed: as they are lent, and afterwards.
#[derive(Clone, Copy)]
struct Changed {
    backdrops: Row,
    counts: Row,
    refs: Row,
}

#[derive(Clone, Copy)]
struct Parts {
    path_nos: Row,
    coords: Row,
    paths: Row,
    before: Changed,
    answer: usize,
    later: Changed,
}

fn parts_at(words: &[u32], at: usize) -> Parts {
    let path_nos = places::first(words, at, 1, 10);
    let coords = places::follow(words, at, 2, path_nos);
    let paths = places::follow(words, at, 3, coords);
    let backdrops = places::follow(words, at, 4, paths);
    let counts = places::follow(words, at, 5, backdrops);
    let refs = places::follow(words, at, 6, counts);
    let answer = places::after(words, refs);
    Parts {
        path_nos,
        coords,
        paths,
        before: Changed {
            backdrops,
            counts,
            refs,
        },
        answer,
        later: later_at(words, answer),
    }
}

fn later_at(words: &[u32], answer: usize) -> Changed {
    let backdrops = places::first(words, answer, 4, 7);
    let counts = places::follow(words, answer, 5, backdrops);
    let refs = places::follow(words, answer, 6, counts);
    Changed {
        backdrops,
        counts,
        refs,
    }
}

// Whether the numbers are those at `at`: the refusal's, the item's, and the running ones.
fn told(words: &[u32], at: usize, number: u32, item: u32, running: Running) -> bool {
    (number == word(words, at, 0))
        & (item == word(words, at, 1))
        & (running.lines == word(words, at, 2))
        & (running.refs == word(words, at, 3))
}

fn answers(words: &[u32], at: usize, a: Result<Running, Stopped>) -> bool {
    match a {
        Ok(running) => told(words, at, DONE, 0, running),
        Err(stopped) => told(
            words,
            at,
            stopped.why.number(),
            stopped.item,
            stopped.running,
        ),
    }
}

fn running_at(words: &[u32], at: usize) -> Running {
    Running {
        lines: word(words, at, 8),
        refs: word(words, at, 9),
    }
}

// The slices that are lent to be changed, filled, and compared afterwards.
fn put(
    words: &[u32],
    at: Changed,
    backdrops: &mut [i32],
    counts: &mut [u32],
    refs: &mut [u32],
) -> bool {
    rows::put(words, at.backdrops, backdrops)
        & rows::put(words, at.counts, counts)
        & rows::put(words, at.refs, refs)
}

fn same(words: &[u32], at: Parts, backdrops: &[i32], counts: &[u32], refs: &[u32]) -> bool {
    rows::same(words, at.before.backdrops, at.later.backdrops, backdrops)
        & rows::same(words, at.before.counts, at.later.counts, counts)
        & rows::same(words, at.before.refs, at.later.refs, refs)
}

// Whether the stage answers so, once the slices that it only reads are there.
fn right(
    words: &[u32],
    head: usize,
    at: Parts,
    path_nos: &[u32],
    coords: &[f32],
    paths: &[u32],
    backdrops: &mut [i32],
    counts: &mut [u32],
    refs: &mut [u32],
) -> bool {
    let whole = put(words, at.before, backdrops, counts, refs);
    let a = path_count::count(
        running_at(words, head),
        word(words, head, 7),
        path_nos,
        coords,
        paths,
        backdrops,
        counts,
        refs,
    );
    whole & answers(words, at.answer, a) & same(words, at, backdrops, counts, refs)
}

// The same, with rooms for those that it changes.
fn right_of(
    words: &[u32],
    head: usize,
    at: Parts,
    path_nos: &[u32],
    coords: &[f32],
    paths: &[u32],
) -> bool {
    let mut backdrops = room::<i32, INTS>();
    let mut counts = room::<u32, WORDS>();
    let mut refs = room::<u32, WORDS>();
    let nb = taken(at.before.backdrops, &backdrops);
    let nc = taken(at.before.counts, &counts);
    let nr = taken(at.before.refs, &refs);
    right(
        words,
        head,
        at,
        path_nos,
        coords,
        paths,
        &mut backdrops[..nb],
        &mut counts[..nc],
        &mut refs[..nr],
    )
}

// Fills what it only reads first.
fn lines_right(
    words: &[u32],
    head: usize,
    at: Parts,
    path_nos: &mut [u32],
    coords: &mut [f32],
    paths: &mut [u32],
) -> bool {
    let whole = rows::put(words, at.path_nos, path_nos)
        & rows::put(words, at.coords, coords)
        & rows::put(words, at.paths, paths);
    whole & right_of(words, head, at, path_nos, coords, paths)
}

pub(crate) fn case(words: &[u32], at: usize) -> Seen {
    let p = parts_at(words, at);
    let mut path_nos = room::<u32, WORDS>();
    let mut coords = room::<f32, FLOATS>();
    let mut paths = room::<u32, WORDS>();
    let nn = taken(p.path_nos, &path_nos);
    let nc = taken(p.coords, &coords);
    let np = taken(p.paths, &paths);
    Seen {
        next: places::after(words, p.later.refs),
        equal: lines_right(
            words,
            at,
            p,
            &mut path_nos[..nn],
            &mut coords[..nc],
            &mut paths[..np],
        ),
    }
}
