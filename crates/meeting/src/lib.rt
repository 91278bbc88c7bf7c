// The first of a row of ranges that meets an earlier one, with no sort: flags for a window of keys at
// a time, in working room that the caller lends. The ranges' first keys stand in the same room.
#![tactic(auto)]

ghost use Rattle.std.specs.Prelude.{◌≡◌, ◌+◌, ◌-◌, ◌*◌, ◌≤◌, ◌<◌, length};
ghost use Rattle.meeting.specs.Meeting.{first_meeting, starts_at, lens_in};
ghost use Rattle.meeting.specs.Found.{KeptBelow, ClearFrom, FlagRan, PassedTo, keys, place_of, window_end, Nearer, NextStart, FewPasses};

// Keys are u32 numbers.
const KEYS: u64 = 0x1_0000_0000;

// The first range that meets an earlier one; how many passes were made to find it, how many ranges
// they looked at and how many words for a flag.
#[derive(Clone, Copy)]
pub struct Met {
    pub first: usize,
    pub passes: u64,
    pub ranges: u64,
    pub words: u64,
}

// What one pass finds, and how many ranges and words it looked at.
#[derive(Clone, Copy)]
struct Passed {
    first: usize,
    ranges: usize,
    words: usize,
}

// The number of keys of range i: 1 where no length is lent for it.
fn len_at(lens: &[u32], i: usize) -> u32
    ensures { result ≡ lens_in lens.now i }
{
    if i < lens.len() { lens[i] } else { 1 }
}

// Zeroes from a place on.
fn clear(work: &mut [u32], free: usize)
    ensures { KeptBelow free work.old work.new × ClearFrom free work.new }
{
    for k in free..work.len() {
        work[k] = 0;
    }
}

// Flags the words from a up to b, and stops at one that is flagged: its place, else b.
fn flag(work: &mut [u32], a: usize, b: usize) -> usize
    requires { (a ≤ b) × (b ≤ length work.old) }
    ensures { KeptBelow a work.old work.new × FlagRan work.old work.new a b result }
{
    for k in a..b {
        if work[k] != 0 {
            return k;
        }
        work[k] = 1;
    }
    b
}

// How far a key lies in a window that begins at low, at most its width.
fn place_of(key: u64, low: u64, width: usize) -> usize
    ensures { result ≡ place_of key low width }
{
    if key <= low {
        return 0;
    }
    if key - low < (width as u64) {
        (key - low) as usize
    } else {
        width
    }
}

// One pass over the window of keys from low on, whose flags are clear: the first range that has a key
// there which an earlier one has too, else n; and what was looked at.
fn pass(work: &mut [u32], at: usize, lens: &[u32], n: usize, free: usize, low: u64) -> Passed
    requires { (at + n ≤ free) × (free ≤ length work.old) × ClearFrom free work.old }
    ensures { KeptBelow free work.old work.new
        × PassedTo (starts_at work.old at) (lens_in lens.now) low (low + (length work.old - free)) n result.first
        × (result.words ≤ length work.old - free + 1) × (result.ranges ≤ n) }
{
    let width = work.len() - free;
    let mut words: usize = 0;
    for i in 0..n {
        let start = work[at + i] as u64;
        let end = start + len_at(lens, i) as u64;
        let from = free + place_of(start, low, width);
        let to = free + place_of(end, low, width);
        let stop = flag(work, from, to);
        words += stop - from;
        if stop < to {
            return Passed {
                first: i,
                ranges: i + 1,
                words: words + 1,
            };
        }
    }
    Passed {
        first: n,
        ranges: n,
        words,
    }
}

// A start in the place of the least so far, if it is less and lies at or past the end.
fn nearer(least: u64, start: u64, end: u64) -> u64
    ensures { Nearer least start end result }
{
    if start < end {
        return least;
    }
    if least < start { least } else { start }
}

// The least start at or past an end, of the first n; KEYS where there is none.
fn next_start(work: &[u32], at: usize, n: usize, end: u64) -> u64
    requires { at + n ≤ length work.now }
    ensures { NextStart (starts_at work.now at) end n result }
{
    let mut least = KEYS;
    for i in 0..n {
        least = nearer(least, work[at + i] as u64, end);
    }
    least
}

// The end of a window of so many keys.
fn window_end(low: u64, width: usize) -> u64
    requires { low < keys }
    ensures { result ≡ window_end low width }
{
    if (width as u64) < KEYS {
        low + (width as u64)
    } else {
        low + KEYS
    }
}

// The first of n ranges that meets an earlier one, else n. Range i starts at the key that stands in
// the room at place at + i, and has as many keys as lens says. The room from free on is for the flags.
// A window begins at a start that lies at or past the end of the one before, so there are few of them.
pub fn meeting(work: &mut [u32], at: usize, lens: &[u32], n: usize, free: usize) -> Met
    requires { (at + n ≤ free) × (free ≤ length work.old) × (1 < n → free < length work.old) × (n < keys) }
    ensures { (result.first ≡ first_meeting (starts_at work.old at) (lens_in lens.now) n)
        × KeptBelow free work.old work.new
        × FewPasses (starts_at work.old at) n (length work.old - free) result.passes
        × (result.words ≤ result.passes * (length work.old - free + 1)) × (result.ranges ≤ result.passes * n) }
{
    let width = work.len() - free;
    let mut best = n;
    let mut low: u64 = 0;
    let mut passes: u64 = 0;
    let mut ranges: u64 = 0;
    let mut words: u64 = 0;
    // not a `for`: low goes on to the next start that the last window doesn't reach
    while (1 < best) & (low < KEYS) {
        clear(work, free);
        let seen = pass(work, at, lens, best, free, low);
        best = seen.first;
        ranges += seen.ranges as u64;
        words += seen.words as u64;
        low = next_start(work, at, best, window_end(low, width));
        passes += 1;
    }
    Met {
        first: best,
        passes,
        ranges,
        words,
    }
}
