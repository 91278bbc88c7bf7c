// Hand-out: the first slot of each tile, from the counts. docs/RULES.md, "The walk of a line" and
// refusals 1, 2 and 9. Added: it is in none of the files ported.
#![tactic(auto)]

ghost use Rattle.std.specs.Prelude.{◌≡◌, ◌≤◌, length};
ghost use Rattle.lists.specs.Sums.{sum};
ghost use Rattle.panel.specs.Limits.{most_tiles, most_slots};
ghost use Rattle.panel.specs.Checks.{first_no};
ghost use Rattle.panel.specs.Verdict.{verdict_told};
ghost use Rattle.panel.specs.Answer.{Done, answer_told};
ghost use Rattle.hand_out.specs.HandOut.{word_for, hand, hand_checks, out_of, HandMet};

use panel::kinds::{Refused, SlotNo};
use panel::limits::{MOST_SLOTS, MOST_TILES};
use panel::refusals::Refusal;
use panel::slots::flipped;

// The sum of the counts, in 64 bits: so few tiles can't wrap it.
fn total_of(counts: &[u32]) -> u64
    requires { length counts.now ≤ most_tiles }
    ensures { result ≡ sum counts.now }
{
    counts.iter().map(|count| *count as u64).sum()
}

// What a tile with that count and that first slot holds.
fn word_of(count: u32, first: SlotNo) -> u32
    ensures { result ≡ word_for count first.0 }
{
    if count == 0 { 0 } else { flipped(first.0) }
}

// The slices lent, then the room.
fn check_call(counts: &[u32], kept: usize, room: u32) -> Result<(), Refusal>
    ensures { verdict_told result ≡ first_no (hand_checks room counts.now kept) }
{
    if counts.len() != kept {
        return Err(Refusal::NotWhole);
    }
    if counts.len() > MOST_TILES as usize {
        return Err(Refusal::TooMany);
    }
    let total = total_of(counts);
    if total > room as u64 {
        return Err(Refusal::NoRoom);
    }
    if total > MOST_SLOTS as u64 {
        return Err(Refusal::NoRoom);
    }
    Ok(())
}

// Each tile's word in the place of its count, and its count in the tally.
fn fill(counts: &mut [u32], tally: &mut [u32])
    requires { (length counts.old ≡ length tally.old) × (sum counts.old ≤ most_slots) }
    ensures { out_of Done counts.new tally.new ≡ out_of Done (hand 0 counts.old) counts.old }
{
    // one by one: `copy_from_slice` compiles to memmove, and the archive needs memcpy and memset alone
    let mut next = SlotNo(0);
    for t in 0..counts.len() {
        let count = counts[t];
        tally[t] = count;
        counts[t] = word_of(count, next);
        let after = next.0 + count;
        next = SlotNo(after);
    }
}

pub fn hand_out(counts: &mut [u32], tally: &mut [u32], room: u32) -> Result<(), Refused>
    ensures { HandMet room counts.old tally.old (answer_told result) counts.new tally.new }
{
    check_call(counts, tally.len(), room)?;
    fill(counts, tally);
    Ok(())
}
