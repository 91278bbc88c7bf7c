// sizes::sizes: how much lines and paths need, before anything is lent for them.
ghost use Rattle.groatpocket.specs.CallSizes.{GpSizesMet};

use panel::refusals::DONE;
use sizes::Room;

// The number; tiles, references and command words; and the item's number: 0 where there is none.
pub fn gp_sizes(
    path_nos: &[u32],
    coords: &[f32],
    paths: &[u32],
    cols: u32,
    rows: u32,
    tiles: &mut u32,
    made: &mut u32,
    words: &mut u32,
    item: &mut u32,
) -> u32
    ensures { GpSizesMet path_nos.now coords.now paths.now cols rows result tiles.new made.new words.new
        item.new }
{
    let nothing = Room {
        tiles: 0,
        refs: 0,
        words: 0,
    };
    let (number, need, i) = match sizes::sizes(path_nos, coords, paths, cols, rows) {
        Ok(need) => (DONE, need, 0),
        Err(refused) => (refused.why.number(), nothing, refused.item),
    };
    *tiles = need.tiles;
    *made = need.refs;
    *words = need.words;
    *item = i;
    number
}
