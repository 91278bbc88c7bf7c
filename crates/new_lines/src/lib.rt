// The new lines of the path, in order, stretch by stretch: each is counting's own line, where it is of this path.
#![tactic(auto)]

ghost use Rattle.std.specs.Prelude.{◌≡◌, ◌*◌, ◌/◌, ◌≤◌, ◌<◌, length};
ghost use Rattle.panel.specs.Paths.{path_count};
ghost use Rattle.panel.specs.Widths.{ref_words, line_floats};
ghost use Rattle.acts.specs.Acts.{st_of};
ghost use Rattle.walked_lines.specs.Line.{Lent};
ghost use Rattle.path_count.specs.Count.{told_of};
ghost use Rattle.new_lines.specs.Own.{lines_ran, lines_told, paper_of, made_of};
ghost use Rattle.new_lines.specs.Recounted.{recounted_told};

use hits::NOTE_ROOM;
use panel::kinds::{LineNo, Refused, Running};
use panel::refusals::Refusal;
use panel::widths::LINE_FLOATS;
use path_count::{Stopped, count_batch};
use stretches::{other_no, stretch};

// A recount that is refused: why, the item's number (the path's, or the line's own number), and the references made
// before it. One that counts all lines has the number of their references as its answer.
#[derive(Clone, Copy)]
pub struct RecountRefused {
    pub why: Refusal,
    pub item: u32,
    pub made: u32,
}

// A line of a batch is refused by its own number.
impl From<Stopped> for RecountRefused {
    ghost from_gives = { λ s r. r ≡ record { why = s.why; item = s.item; made = s.running.refs } };

    fn from(s: Stopped) -> Self {
        RecountRefused {
            why: s.why,
            item: s.item,
            made: s.running.refs,
        }
    }
}

// Before the first line no reference is made.
impl From<Refused> for RecountRefused {
    ghost from_gives = { λ a r. r ≡ record { why = a.why; item = a.item; made = 0 } };

    fn from(a: Refused) -> Self {
        RecountRefused {
            why: a.why,
            item: a.item,
            made: 0,
        }
    }
}

// All of them, as references 0, 1, .. Their numbers are lent beside them. A stretch of lines that are numbered one after
// the other is a batch of counting's own.
pub fn count_lines(
    path: u32,
    line_nos: &[u32],
    path_nos: &[u32],
    coords: &[f32],
    paths: &[u32],
    backs: &mut [i32],
    counts: &mut [u32],
    refs: &mut [u32],
) -> Result<u32, RecountRefused>
    requires { Lent paths.now (length backs.old) (length counts.old) × (path < path_count paths.now)
        × (length line_nos.now ≡ length path_nos.now) × (length path_nos.now * line_floats ≤ length coords.now) }
    ensures { told_of (paper_of (recounted_told result)) (st_of backs.new counts.new refs.new (made_of (recounted_told result)))
        ≡ lines_told line_nos.now (lines_ran path line_nos.now path_nos.now coords.now paths.now (length refs.old / ref_words)
        (st_of backs.old counts.old refs.old 0)) }
{
    let mut notes = [0u32; NOTE_ROOM];
    let mut made: u32 = 0;
    let mut k: usize = 0;
    // A stretch is many lines long, so a turn goes on by as many.
    while k < path_nos.len() {
        let l = line_nos[k];
        let at = k * LINE_FLOATS;
        let n = stretch(path, line_nos, path_nos, k);
        if n == 0 {
            return Err(RecountRefused {
                why: other_no(LineNo(l), &coords[at..]),
                item: l,
                made,
            });
        }
        let t = count_batch(
            l,
            Running {
                lines: 0,
                refs: made,
            },
            n,
            &path_nos[k..],
            &coords[at..],
            paths,
            &mut notes,
            backs,
            counts,
            refs,
        );
        let s = match t {
            Ok(s) => s,
            Err(stopped) => {
                return Err(RecountRefused {
                    why: stopped.why,
                    item: stopped.item,
                    made: stopped.running.refs,
                });
            }
        };
        made = s.refs;
        k += n as usize;
    }
    Ok(made)
}

#[cfg(test)]
mod tests {
    use super::*;

    #[test]
    fn a_stopped_batch_as_a_recount(rt: HostRuntime) {
        let r = RecountRefused::from(Stopped {
            why: Refusal::Coordinate,
            item: 7,
            running: Running { lines: 2, refs: 5 },
        });
        assert!(rt; r.why == Refusal::Coordinate);
        assert_eq!(rt; r.item, 7);
        assert_eq!(rt; r.made, 5);
    }
}
