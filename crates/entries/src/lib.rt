// The tables of another's count: the first count that isn't ours, and the first tile whose slots lie
// past the room or over an earlier tile's. Ours stand in working room that the caller lends.
#![tactic(auto)]

ghost use Rattle.std.specs.Prelude.{◌≡◌, ◌&&◌, ◌+◌, ◌-◌, ◌≤◌, ◌<◌, ◌^◌, ltb, length};
ghost use Rattle.lists.specs.Sums.{first};
ghost use Rattle.panel.specs.Slots.{not32};
ghost use Rattle.meeting.specs.Found.{KeptBelow, keys};
ghost use Rattle.entries.specs.Entries.{first_count_fault, first_slot_fault};
ghost use Rattle.entries.specs.Noted.{SlotsTo, SumsNoted, noted_slot};

use meeting::{Met, meeting};

// The first tile whose count isn't ours; the number of tiles where all are. Ours are the first words
// of the room.
pub fn first_count(counts: &[u32], work: &[u32]) -> usize
    requires { length counts.now ≤ length work.now }
    ensures { result ≡ first_count_fault counts.now work.now }
{
    for t in 0..counts.len() {
        if counts[t] != work[t] {
            return t;
        }
    }
    counts.len()
}

// Whether a tile with that count and that word has a slot past the room.
fn past(count: u32, word: u32, room: u32) -> bool
    ensures { result ≡ (ltb 0 count && ltb room (not32 word + count)) }
{
    (0 < count) & ((room as u64) < (!word as u64) + (count as u64))
}

// The first slot of a tile with that count and that word; 0 for a tile that has none, whatever its word:
// so no key lies past the room.
fn noted(count: u32, word: u32) -> u32
    ensures { result ≡ noted_slot count word }
{
    if 0 < count { !word } else { 0 }
}

// The first tile with slots past the room; the first slots of those before it are noted from a place on.
fn note_slots(counts: &[u32], stored: &[u32], room: u32, work: &mut [u32], at: usize) -> usize
    requires { (at + length counts.now ≤ length work.old) × (length stored.now ≡ length counts.now) }
    ensures { SlotsTo room counts.now stored.now work.old work.new at result }
{
    for t in 0..counts.len() {
        let count = counts[t];
        let word = stored[t];
        if past(count, word, room) {
            return t;
        }
        work[at + t] = noted(count, word);
    }
    counts.len()
}

// The first tile whose slots are at fault; the number of tiles where none is. The room has a word for
// each tile from a place on, and behind them at least as many that are free for flags: so no more tiles
// are looked at in the search for a meeting than there are slots and tiles.
pub fn first_slots(
    counts: &[u32],
    stored: &[u32],
    room: u32,
    work: &mut [u32],
    at: usize,
    free: usize,
) -> Met
    requires { (at + length counts.now ≤ free) × (free + length counts.now ≤ length work.old) × (length counts.now < keys)
        × (length stored.now ≡ length counts.now) }
    ensures { (result.first ≡ first_slot_fault room counts.now stored.now) × KeptBelow at work.old work.new
        × (result.ranges ≤ room + length counts.now) × (result.words ≤ room + room + (length work.old - free) + 1) }
{
    let n = note_slots(counts, stored, room, work, at);
    meeting(work, at, counts, n, free)
}

// Where the range of each of the first n words begins when ranges as long as the words are laid one
// after another: noted from a place on.
pub fn sum_up(work: &mut [u32], n: usize, at: usize)
    requires { (n ≤ at) × (at + n ≤ length work.old) × (first work.old n < 2 ^ 32) }
    ensures { KeptBelow at work.old work.new × SumsNoted work.old work.new at n }
{
    let mut sum: u32 = 0;
    for t in 0..n {
        let count = work[t];
        work[at + t] = sum;
        sum += count;
    }
}
