// What a pixel's call carries from command to command.
ghost use Rattle.std.specs.Prelude.{◌≡◌};
ghost use Rattle.pixel.specs.Held.{covered_by};

// A pixel between two commands: its area, and its colour of four floats, red first.
#[derive(Clone, Copy)]
pub struct Held {
    pub area: f32,
    pub px: [f32; 4],
}

impl Held {
    // With another area.
    pub fn covered(mut self, a: f32) -> Self
        ensures { result ≡ covered_by self a }
    {
        self.area = a;
        self
    }
}
