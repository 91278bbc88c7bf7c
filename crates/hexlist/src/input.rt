// The words of standard input.
ghost use Rattle.std.specs.Prelude.{◌≡◌, length};
ghost use Rattle.io.specs.Counts.{IsPrefixLen};

use crate::scan::Scan;

// Room for the words of one list.
pub fn room() -> [u32; 262144]
    ensures { 262144 ≡ length result }
{
    [0; 262144]
}

// What one read brought.
fn read_some(s: Scan, words: &mut [u32]) -> Option<Scan> {
    let mut buffer = io::large_buffer();
    let n = io::read_full(0, &mut buffer);
    if n == 0 {
        return None;
    }
    Some(s.feed(&buffer[..n], words))
}

// Reads standard input to its end, stores its words while there is room, and answers how many.
// A proved loop has to end, so it reads at most as often as no list asks for.
pub fn read(words: &mut [u32]) -> usize
    ensures { IsPrefixLen result words.new }
{
    let mut scan = Scan::start();
    for _ in 0..1_000_000 {
        let Some(next) = read_some(scan, words) else {
            break;
        };
        scan = next;
    }
    // the input's end ends a word
    scan.take(b'\n', words).made.min(words.len())
}
