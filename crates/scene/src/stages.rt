// The scene through all stages. Each function runs a stage or two on the memory lent to it, makes the
// room for the next, and goes on. A refusal, which the scene doesn't meet, is told and ends it.
use super::drawing;
use super::paths::{COLS, PAINTS, PATHS, ROWS};
use super::rooms::{BYTES, PIXELS, SEGMENT_FLOATS, SLOTS, TILES, WORDS, room};
use panel::kinds::Running;
use panel::refusals::Refusal;

// Standard output, as io takes it.
const STDOUT_FILENO: i32 = 1;

const TILE_SIDE: u32 = 16;

fn tell(stage: &[u8], why: Refusal) {
    io::write_all(STDOUT_FILENO, stage);
    io::write_all(STDOUT_FILENO, b" refused: ");
    io::print_decimal(STDOUT_FILENO, u64::from(why.number()));
    io::write_all(STDOUT_FILENO, b"\n");
}

// The first n bytes, on standard output.
fn show(file: &[u8], n: usize) {
    if let Some(bytes) = file.get(..n) {
        io::write_all(STDOUT_FILENO, bytes);
    }
}

fn put_on_paper(pixels: &[u32], file: &mut [u8]) {
    match ppm_write::write(pixels, TILE_SIDE * COLS, TILE_SIDE * ROWS, file) {
        Ok(n) => show(file, n),
        Err(why) => tell(b"the writer", why),
    }
}

fn paint(words: &[u32], segments: &[f32], pixels: &mut [u32]) {
    let painted = fine::fine(
        words,
        segments,
        TILE_SIDE * COLS,
        COLS,
        ROWS,
        0,
        COLS * ROWS,
        pixels,
    );
    if let Err(refused) = painted {
        return tell(b"fine", refused.why);
    }
    let mut file = room::<u8, BYTES>(0);
    put_on_paper(pixels, &mut file);
}

fn list(backdrops: &[i32], tiles: &[u32], tally: &[u32], segments: &[f32], words: &mut [u32]) {
    let listed = write_lists::write_lists(
        &PATHS,
        &PAINTS,
        backdrops,
        tiles,
        tally,
        COLS,
        ROWS,
        SLOTS as u32,
        words,
    );
    if let Err(refused) = listed {
        return tell(b"the lists", refused.why);
    }
    let mut pixels = room::<u32, PIXELS>(0);
    paint(words, segments, &mut pixels);
}

fn tile(
    made: u32,
    path_nos: &[u32],
    coords: &[f32],
    backdrops: &[i32],
    tiles: &[u32],
    tally: &[u32],
    refs: &[u32],
    segments: &mut [f32],
    tags: &mut [u32],
) {
    let tiled = path_tiling::tile(
        0, made, path_nos, coords, &PATHS, tiles, refs, segments, tags,
    );
    if let Err(refused) = tiled {
        return tell(b"tiling", refused.why);
    }
    let mut words = room::<u32, WORDS>(0);
    list(backdrops, tiles, tally, segments, &mut words);
}

fn sum_and_hand_out(
    made: u32,
    path_nos: &[u32],
    coords: &[f32],
    backdrops: &mut [i32],
    tiles: &mut [u32],
    tally: &mut [u32],
    refs: &[u32],
) {
    if let Err(refused) = backdrop::backdrop(&PATHS, backdrops) {
        return tell(b"backdrop", refused.why);
    }
    if let Err(refused) = hand_out::hand_out(tiles, tally, SLOTS as u32) {
        return tell(b"hand-out", refused.why);
    }
    let mut segments = room::<f32, SEGMENT_FLOATS>(0.0);
    let mut tags = room::<u32, SLOTS>(0);
    tile(
        made,
        path_nos,
        coords,
        backdrops,
        tiles,
        tally,
        refs,
        &mut segments,
        &mut tags,
    );
}

fn count(
    lines: u32,
    path_nos: &[u32],
    coords: &[f32],
    backdrops: &mut [i32],
    tiles: &mut [u32],
    refs: &mut [u32],
) {
    let from = Running { lines: 0, refs: 0 };
    let counted = path_count::count(
        from, lines, path_nos, coords, &PATHS, backdrops, tiles, refs,
    );
    match counted {
        Ok(running) => {
            let mut tally = room::<u32, TILES>(0);
            sum_and_hand_out(
                running.refs,
                path_nos,
                coords,
                backdrops,
                tiles,
                &mut tally,
                refs,
            )
        }
        Err(stopped) => tell(b"counting", stopped.why),
    }
}

pub(crate) fn draw() {
    let pen = drawing::panel();
    let path_nos = pen.path_nos;
    let coords = pen.coords;
    let mut backdrops = room::<i32, TILES>(0);
    let mut tiles = room::<u32, TILES>(0);
    let mut refs = room::<u32, TILES>(0);
    count(
        u32::try_from(pen.lines).unwrap_or(0),
        &path_nos,
        &coords,
        &mut backdrops,
        &mut tiles,
        &mut refs,
    );
}
