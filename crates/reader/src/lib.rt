// The command reader holds the lent words and a place: docs/RULES.md, "Coverage and colour". fine.rs
// indexes its list and panics past the end.
#![tactic(auto)]

ghost use Rattle.std.specs.Prelude.{◌≡◌};
ghost use Rattle.reader.specs.Look.{look_at};

#[derive(Clone, Copy)]
pub struct Reader<'a> {
    pub words: &'a [u32],
    pub at: usize,
}

impl<'a> Reader<'a> {
    pub fn new(words: &'a [u32], at: usize) -> Reader<'a>
        ensures { (result.words ≡ words.entry) × (result.at ≡ at) }
    {
        Reader { words, at }
    }

    // The word that stands at the place, if one does.
    pub fn peek(self) -> Option<u32>
        ensures { result ≡ look_at self.entry.words.now self.entry.at }
    {
        self.words.get(self.at).copied()
    }
}

// The same with plain parameters.
pub fn peek_from(words: &[u32], at: usize) -> Option<u32>
    ensures { result ≡ look_at words.now at }
{
    Reader::new(words, at).peek()
}
