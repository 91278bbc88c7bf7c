// What a word of a list stands for, and whether a value is the one that a word names.
ghost use Rattle.std.specs.Prelude.{◌≡◌, ◌+◌, ℕ, Bool, eqb, get_or};
ghost use Rattle.std.specs.Float.{binary32};
ghost use Rattle.std.specs.Float.Ieee.{of_bits};
ghost use Rattle.hexlist.specs.Values.{int_of, is_int, is_float};

// The word k after `base`, and 0 past the end.
pub fn word(words: &[u32], base: usize, k: usize) -> u32
    ensures { result ≡ get_or words.now (base + k) 0 }
{
    base.checked_add(k)
        .and_then(|at| words.get(at))
        .copied()
        .unwrap_or(0)
}

// What the words of a row may stand for.
pub trait Element: Copy {
    ghost value_of: { ℕ → Self };

    ghost is_value: { Self → ℕ → Bool };

    // The value that has the bits w.
    fn of_word(w: u32) -> Self
        ensures { result ≡ value_of w };

    // Whether the value has the bits w.
    fn is_word(self, w: u32) -> bool
        ensures { result ≡ is_value self w };
}

impl Element for u32 {
    ghost value_of = { λ w. w };

    ghost is_value = { eqb };

    fn of_word(w: u32) -> u32 {
        w
    }

    fn is_word(self, w: u32) -> bool {
        self == w
    }
}

impl Element for i32 {
    ghost value_of = { int_of };

    ghost is_value = { is_int };

    fn of_word(w: u32) -> i32 {
        w.cast_signed()
    }

    fn is_word(self, w: u32) -> bool {
        self.cast_unsigned() == w
    }
}

impl Element for f32 {
    ghost value_of = { of_bits binary32 };

    ghost is_value = { is_float };

    // The patterns of a NaN all give one.
    fn of_word(w: u32) -> f32 {
        if 0x7f80_0000 < w % 0x8000_0000 {
            f32::NAN
        } else {
            f32::from_bits(w)
        }
    }

    // Any NaN has the bits of any NaN.
    fn is_word(self, w: u32) -> bool {
        if self.is_nan() {
            0x7f80_0000 < w % 0x8000_0000
        } else {
            f32::to_bits(self) == w
        }
    }
}
