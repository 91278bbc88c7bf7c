// A step noted in one word: its tile's number twice, and one more where it marks the tile right of it.
ghost use Rattle.std.specs.Prelude.{◌≡◌, ◌^◌, ◌<◌};
ghost use Rattle.strides.specs.Words.{word_of, word_tile, word_marks};

// The word of a step on a tile.
pub fn word_of(tile: u32, marks: bool) -> u32
    requires { tile < 2 ^ 31 }
    ensures { result ≡ word_of tile marks }
{
    if marks { tile * 2 + 1 } else { tile * 2 }
}

// The tile of a word's step.
pub fn word_tile(word: u32) -> u32
    ensures { result ≡ word_tile word }
{
    word / 2
}

// Whether it marks the tile right of it.
pub fn word_marks(word: u32) -> bool
    ensures { result ≡ word_marks word }
{
    word % 2 == 1
}
