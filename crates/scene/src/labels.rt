// What is written on the panel, in letters of so many pixels to a unit, from the upper left corner on.
use super::letters;
use super::pen::Pen;

// From one letter to the next, in units.
const ADVANCE: f32 = 13.0;

impl Pen {
    // A letter: its outline, and then those of its holes.
    fn letter(self, c: u8, x: f32, y: f32, unit: f32) -> Self {
        match c {
            b'A' => self
                .outline(&letters::A, x, y, unit)
                .outline(&letters::A_HOLE, x, y, unit),
            b'B' => self
                .outline(&letters::B, x, y, unit)
                .outline(&letters::B_HOLE_1, x, y, unit)
                .outline(&letters::B_HOLE_2, x, y, unit),
            b'E' => self.outline(&letters::E, x, y, unit),
            b'F' => self.outline(&letters::F, x, y, unit),
            b'I' => self.outline(&letters::I, x, y, unit),
            b'L' => self.outline(&letters::L, x, y, unit),
            b'N' => self.outline(&letters::N, x, y, unit),
            b'O' => self
                .outline(&letters::O, x, y, unit)
                .outline(&letters::O_HOLE, x, y, unit),
            b'R' => self
                .outline(&letters::R, x, y, unit)
                .outline(&letters::R_HOLE, x, y, unit),
            b'S' => self.outline(&letters::S, x, y, unit),
            b'T' => self.outline(&letters::T, x, y, unit),
            b'U' => self.outline(&letters::U, x, y, unit),
            b'W' => self.outline(&letters::W, x, y, unit),
            _ => self,
        }
    }

    pub(crate) fn word(self, word: &[u8], x: f32, y: f32, unit: f32) -> Self {
        let mut pen = self;
        let mut at = x;
        for c in word {
            pen = pen.letter(*c, at, y, unit);
            at += ADVANCE * unit;
        }
        pen
    }
}
