// Traces of docs/RULES.md, drawn: one line each through counting, the sums, hand-out and tiling, in a box
// of two by two tiles. What it must print stands in stdout, and is the Rust's (segments in bits).
#![tactic(auto)]

use panel::kinds::{Running, number};
use panel::limits::EDGE_MOST;
use panel::refusals::DONE;
use path_count::Stopped;

// Standard output, as io takes it.
const STDOUT_FILENO: i32 = 1;

fn space() {
    io::write_all(STDOUT_FILENO, b" ");
}

fn line() {
    io::write_all(STDOUT_FILENO, b"\n");
}

fn show(n: u32) {
    space();
    io::print_decimal(STDOUT_FILENO, u64::from(n));
}

// A backdrop of one line: none of these has another.
fn show_int(n: i32) {
    match n {
        0 => io::write_all(STDOUT_FILENO, b" 0"),
        1 => io::write_all(STDOUT_FILENO, b" 1"),
        -1 => io::write_all(STDOUT_FILENO, b" -1"),
        _ => io::write_all(STDOUT_FILENO, b" ?"),
    };
}

fn show_words(words: &[u32]) {
    for w in words {
        show(*w);
    }
    line();
}

fn show_ints(ints: &[i32]) {
    for n in ints {
        show_int(*n);
    }
    line();
}

// A float's bits; a NaN's as one.
fn show_bits(x: f32) {
    space();
    let bits = if x.is_nan() { 0x7fc0_0000 } else { x.to_bits() };
    io::print_hex(STDOUT_FILENO, u64::from(bits), 1);
}

fn show_segment(segment: &[f32]) {
    for x in segment {
        show_bits(*x);
    }
    line();
}

// How many references were made.
fn made(c: Result<Running, Stopped>) -> u32 {
    match c {
        Ok(running) => running.refs,
        Err(stopped) => stopped.running.refs,
    }
}

fn answer(c: Result<Running, Stopped>) -> u32 {
    match c {
        Ok(_) => DONE,
        Err(stopped) => stopped.why.number(),
    }
}

// The beam number of path 0.
const BEAM: u32 = 7;

// The segments of path 0's line, once it is counted and has its slots.
fn trace_tiles(
    made: u32,
    path_nos: &[u32],
    coords: &[f32],
    paths: &[u32],
    counts: &[u32],
    refs: &[u32],
) {
    let mut segs = [0.0f32; 10];
    let mut tags = [0u32; 2];
    let t = path_tiling::tile(
        0, made, path_nos, coords, paths, counts, refs, &mut segs, &mut tags,
    );
    io::write_all(STDOUT_FILENO, b"  tile");
    show(number(t));
    line();
    io::write_all(STDOUT_FILENO, b"  slot 0:");
    show_segment(&segs[..5]);
    io::write_all(STDOUT_FILENO, b"  slot 1:");
    show_segment(&segs[5..]);
    io::write_all(STDOUT_FILENO, b"  tags");
    show_words(&tags);
}

// The sums and the slots of path 0's line, once it is counted, and then its segments.
fn trace_sums(
    made: u32,
    path_nos: &[u32],
    coords: &[f32],
    paths: &[u32],
    backs: &mut [i32],
    counts: &mut [u32],
    refs: &[u32],
) {
    let b = backdrop::backdrop(paths, backs);
    io::write_all(STDOUT_FILENO, b"  sums");
    show(number(b));
    io::write_all(STDOUT_FILENO, b":");
    show_ints(backs);
    let mut tally = [0u32; 4];
    let h = hand_out::hand_out(counts, &mut tally, 2);
    io::write_all(STDOUT_FILENO, b"  hand-out");
    show(number(h));
    io::write_all(STDOUT_FILENO, b":");
    show_words(counts);
    trace_tiles(made, path_nos, coords, paths, counts, refs);
}

// One line of path 0, whose box starts at column x0.
fn trace(px: f32, py: f32, qx: f32, qy: f32, x0: u32) {
    let path_nos = [0u32; 1];
    let coords = [px, py, qx, qy];
    let paths = [x0, 0, x0 % EDGE_MOST + 2, 2, 0, BEAM];
    let mut backs = [0i32; 4];
    let mut counts = [0u32; 4];
    let mut refs = [0u32; 8];
    let from = Running { lines: 0, refs: 0 };
    let c = path_count::count(
        from,
        1,
        &path_nos,
        &coords,
        &paths,
        &mut backs,
        &mut counts,
        &mut refs,
    );
    io::write_all(STDOUT_FILENO, b"count");
    show(answer(c));
    io::write_all(STDOUT_FILENO, b", references");
    show(made(c));
    line();
    io::write_all(STDOUT_FILENO, b"  counts");
    show_words(&counts);
    io::write_all(STDOUT_FILENO, b"  backdrops");
    show_ints(&backs);
    trace_sums(
        made(c),
        &path_nos,
        &coords,
        &paths,
        &mut backs,
        &mut counts,
        &refs,
    );
}

fn main() {
    io::write_all(STDOUT_FILENO, b"(8,8)-(8,24): ");
    trace(8.0, 8.0, 8.0, 24.0, 0);
    io::write_all(STDOUT_FILENO, b"(0,16)-(32,16): ");
    trace(0.0, 16.0, 32.0, 16.0, 0);
    io::write_all(STDOUT_FILENO, b"(0,8)-(32,8): ");
    trace(0.0, 8.0, 32.0, 8.0, 0);
    io::write_all(STDOUT_FILENO, b"(8,8)-(8,24), box from column 1: ");
    trace(8.0, 8.0, 8.0, 24.0, 1);
    io::write_all(STDOUT_FILENO, b"(8,24)-(8,8), box from column 1: ");
    trace(8.0, 24.0, 8.0, 8.0, 1);
    io::write_all(STDOUT_FILENO, b"(16,0)-(16,16): ");
    trace(16.0, 0.0, 16.0, 16.0, 0);
    io::write_all(STDOUT_FILENO, b"(0,4)-(8,8): ");
    trace(0.0, 4.0, 8.0, 8.0, 0);
}
