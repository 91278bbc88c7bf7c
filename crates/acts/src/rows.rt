// Row marks: the first column's tiles in the rows that a line passes left of its path's box.
ghost use Rattle.std.specs.Prelude.{◌≡◌, true, [], length};
ghost use Rattle.lists.specs.Run.{done};
ghost use Rattle.panel.specs.Verdict.{verdict_told};
ghost use Rattle.acts.specs.Acts.{st_of, run_acts, check_no, is_done, delta_of};
ghost use Rattle.acts.specs.Rows.{rows_acts, RowsIn};

use super::marks::{leaves, mark};
use panel::refusals::Refusal;

// Rows low .. high of a box whose top row is top, with its first tile and its width.
#[derive(Clone, Copy)]
pub struct Rows {
    pub first: u32,
    pub top: u32,
    pub width: u32,
    pub low: u32,
    pub high: u32,
}

// The check of row marks, upward in y: it writes nothing.
pub fn check_rows(rows: Rows, up: bool, backs: &[i32], counts: &[u32]) -> Result<(), Refusal>
    requires { RowsIn rows (length backs.now) }
    ensures { verdict_told result ≡ check_no (delta_of up) (rows_acts rows) backs.now counts.now }
{
    for y in rows.low..rows.high {
        let t = (rows.first + (y - rows.top) * rows.width) as usize;
        if leaves(backs[t], up) {
            return Err(Refusal::SumOver);
        }
    }
    Ok(())
}

// Row marks that are known to go through.
pub fn write_rows(rows: Rows, up: bool, backs: &mut [i32])
    requires { RowsIn rows (length backs.old) × (is_done (run_acts (delta_of up) 0 (rows_acts rows) (st_of backs.old [] [] 0)) ≡ true) }
    ensures { done (st_of backs.new [] [] 0) ≡ run_acts (delta_of up) 0 (rows_acts rows) (st_of backs.old [] [] 0) }
{
    for y in rows.low..rows.high {
        let t = (rows.first + (y - rows.top) * rows.width) as usize;
        mark(backs, t, up);
    }
}
