// A tile's list of commands carried out, on the areas and the colours lent. docs/RULES.md, "Coverage and
// colour" and refusals 13 to 15; fine.rs, lines 128 to 171.
#![tactic(auto)]

ghost use Rattle.std.specs.Prelude.{◌≡◌, ◌-◌, ◌≤◌, length};
ghost use Rattle.panel.specs.Limits.{most_commands};
ghost use Rattle.sides.specs.Tile.{tile_size};
ghost use Rattle.colours.specs.Layer.{meant, NoMinus};
ghost use Rattle.commands.specs.Moves.{trace_of};
ghost use Rattle.commands.specs.Alike.{left, ends_here};
ghost use Rattle.run_list.specs.Stop.{stop_told};
ghost use Rattle.run_list.specs.Stopped.{stopped};

use commands::numbers::{COLOR, COLOR_WORDS, END};
use commands::steps::{move_at, op_of};
use on_pixels::carry_out;
use panel::limits::MOST_COMMANDS;
use panel::refusals::Refusal;
use reader::peek_from;
use sides::{TILE_HEIGHT, TILE_SIZE};

// Whether END stands at a place.
pub fn ends_at(words: &[u32], at: usize) -> bool
    ensures { result ≡ ends_here words.now at }
{
    peek_from(words, at) == Some(END)
}

// The commands from the word `start` on, after `gone` others, from these areas: up to END, the first that is
// refused or a COLOR that END follows. That COLOR's word is the answer, and it is the caller's to lay. END passes
// where as many as may be have been carried out; any other is refused with 15 there.
pub fn run(
    words: &[u32],
    segments: &[f32],
    start: usize,
    gone: u32,
    area: &mut [f32],
    rgba: &mut [[f32; 4]; TILE_SIZE],
    flat: &mut [bool; TILE_HEIGHT],
) -> Result<Option<u32>, Refusal>
    requires { (length area.old ≡ tile_size) × (length rgba.old ≡ tile_size) × (gone ≤ most_commands) × NoMinus area.old }
    ensures { (length area.new ≡ tile_size) × (length rgba.new ≡ tile_size) × NoMinus area.new
        × (stopped (stop_told result) area.new (meant flat.new rgba.new)
        ≡ left segments.now (trace_of (most_commands - gone) words.now segments.now start) area.old (meant flat.old rgba.old)) }
{
    let mut at = start;
    let mut count = gone;
    // no `for`: the command after the last that may be is looked at too, since it may be END
    loop {
        let Some(tag) = peek_from(words, at) else {
            return Err(Refusal::PastEnd);
        };
        if tag == END {
            return Ok(None);
        }
        if count == MOST_COMMANDS {
            return Err(Refusal::TooLong);
        }
        if (tag == COLOR) & ends_at(words, at + COLOR_WORDS) {
            return Ok(Some(words[at + 1]));
        }
        let (act, next) = move_at(words, segments, at, op_of(tag))?;
        carry_out(act, segments, area, rgba, flat);
        at = next;
        count += 1;
    }
}
