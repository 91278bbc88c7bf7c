// A pen that draws closed outlines as lines: path numbers, and four floats to a line. It goes from hand to
// hand with the lines drawn so far; where there is no room for another, that one isn't drawn.
pub const LINES: usize = 2048;

pub const FLOATS: usize = 4 * LINES;

#[derive(Clone, Copy)]
pub struct Pen {
    pub lines: usize,
    pub path: u32,
    pub x: f32,
    pub y: f32,
    pub path_nos: [u32; LINES],
    pub coords: [f32; FLOATS],
}

// A reading, or a count, as a float.
fn number(b: u8) -> f32 {
    f32::from(b)
}

pub(crate) fn start() -> Pen {
    Pen {
        lines: 0,
        path: 0,
        x: 0.0,
        y: 0.0,
        path_nos: [0; LINES],
        coords: [0.0; FLOATS],
    }
}

impl Pen {
    // The next lines are another path's.
    pub(crate) fn of(mut self, path: u32) -> Self {
        self.path = path;
        self
    }

    fn move_to(mut self, x: f32, y: f32) -> Self {
        self.x = x;
        self.y = y;
        self
    }

    fn line_to(mut self, x: f32, y: f32) -> Self {
        let k = self.lines;
        if k < LINES {
            let path = self.path;
            let px = self.x;
            let py = self.y;
            self.path_nos[k] = path;
            self.coords[4 * k] = px;
            self.coords[4 * k + 1] = py;
            self.coords[4 * k + 2] = x;
            self.coords[4 * k + 3] = y;
            self.lines = k + 1;
            self.x = x;
            self.y = y;
        }
        self
    }

    // A block w wide and h high, from its upper left corner.
    pub(crate) fn block(self, x: f32, y: f32, w: f32, h: f32) -> Self {
        self.move_to(x, y)
            .line_to(x + w, y)
            .line_to(x + w, y + h)
            .line_to(x, y + h)
            .line_to(x, y)
    }

    // n blocks, each dx and dy further on.
    pub(crate) fn blocks(self, n: u8, x: f32, y: f32, w: f32, h: f32, dx: f32, dy: f32) -> Self {
        let mut pen = self;
        for i in 0..n {
            let k = number(i);
            pen = pen.block(x + dx * k, y + dy * k, w, h);
        }
        pen
    }

    // A trace, filled down to its line of rest, y: a reading every `step` from x on, `unit` high for each that
    // it is over `rest`.
    pub(crate) fn trace(
        self,
        readings: &[u8],
        x: f32,
        y: f32,
        step: f32,
        unit: f32,
        rest: f32,
    ) -> Self {
        let mut pen = self.move_to(x, y);
        let mut at = x;
        for reading in readings {
            let high = unit * (number(*reading) - rest);
            pen = pen.line_to(at, y - high);
            at += step;
        }
        pen.line_to(at - step, y).line_to(x, y)
    }

    // A closed outline from its points' x and y, those `unit` times their way from (128, 128), about (x, y).
    pub(crate) fn outline(self, points: &[u8], x: f32, y: f32, unit: f32) -> Self {
        if points.len() < 2 {
            return self;
        }
        let left = x + unit * (number(points[0]) - 128.0);
        let top = y + unit * (number(points[1]) - 128.0);
        let mut pen = self.move_to(left, top);
        for i in 1..points.len() / 2 {
            let px = x + unit * (number(points[2 * i]) - 128.0);
            let py = y + unit * (number(points[2 * i + 1]) - 128.0);
            pen = pen.line_to(px, py);
        }
        pen.line_to(left, top)
    }
}
