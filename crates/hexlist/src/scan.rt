// A text of hexadecimal words, byte by byte. A word is a run of digits 0 to 9 and a to f, of which the
// last eight count. A comment goes from # to the line's end. Any other byte only ends a word.
ghost use Rattle.std.specs.Prelude.{◌≡◌, ◌<◌, ◌≤◌, MatchOption};
ghost use Rattle.hexlist.specs.Text.{digit_of, start_of, state_of, take_of, feed_of};

// Where the text stands: the word begun, whether there is one, whether in a comment, and how many
// words are stored.
#[derive(Clone, Copy)]
pub struct Scan {
    pub value: u32,
    pub begun: bool,
    pub comment: bool,
    pub made: usize,
}

// What a byte is worth as a digit.
#[tactic(auto, using(std::proofs::lemmas::Bool::Decides::nat_tests))]
fn digit(b: u8) -> Option<u32>
    ensures { MatchOption result (16 ≡ digit_of b) (λ d. (d ≡ digit_of b) × (d < 16)) }
{
    match b {
        b'0'..=b'9' => Some((b - b'0') as u32),
        b'a'..=b'f' => Some((b - b'a') as u32 + 10),
        _ => None,
    }
}

impl Scan {
    pub fn start() -> Scan
        ensures { result ≡ start_of }
    {
        Scan {
            value: 0,
            begun: false,
            comment: false,
            made: 0,
        }
    }

    // One byte more. A word that ends is stored, if there is room.
    #[tactic(auto, using(std::proofs::lemmas::Bool::Decides::nat_tests), unfolding(crate::specs::Text::take_of))]
    pub fn take(self, b: u8, words: &mut [u32]) -> Scan
        ensures { state_of result words.new ≡ take_of b (state_of self words.old) }
    {
        if self.comment {
            return Scan {
                comment: b != b'\n',
                ..self
            };
        }
        if let Some(d) = digit(b) {
            return Scan {
                value: self.value % 0x1000_0000 * 16 + d,
                begun: true,
                comment: false,
                made: self.made,
            };
        }
        let mut made = self.made;
        if self.begun & (made < words.len()) {
            words[made] = self.value;
            made += 1;
        }
        Scan {
            value: 0,
            begun: false,
            comment: b == b'#',
            made,
        }
    }

    // A part of the text.
    pub fn feed(self, text: &[u8], words: &mut [u32]) -> Scan
        ensures { state_of result words.new ≡ feed_of text.now (state_of self words.old) }
    {
        let mut scan = self;
        for b in text {
            scan = scan.take(*b, words);
        }
        scan
    }
}
