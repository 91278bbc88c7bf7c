// z carried from one step to the next: of a line's references each step is mostly one more than the last,
// so its z and the z before it are at hand, and only the z after it is worked out.
#![tactic(auto)]

ghost use Rattle.std.specs.Prelude.{◌≡◌, ◌<◌};
ghost use Rattle.panel.specs.Widths.{step_range};
ghost use Rattle.carry.specs.Carry.{Carried, zs_of, no_zs};

use panel::widths::STEP_RANGE;
use walk::kinds::Pace;
use walk::step::z_at;

// A step's z, with those of the steps before and after it.
#[derive(Clone, Copy)]
pub struct Zs {
    pub at: u32,
    pub before: f32,
    pub z: f32,
    pub after: f32,
}

// Those of no step: none comes after it.
pub fn no_zs() -> Zs
    ensures { result ≡ no_zs }
{
    Zs {
        at: STEP_RANGE,
        before: 0.0,
        z: 0.0,
        after: 0.0,
    }
}

// Those of step i, by those of the step that was looked at last.
pub fn zs_at(p: Pace, last: Zs, i: u32) -> Zs
    requires { (i < step_range) × Carried p last }
    ensures { result ≡ zs_of p i }
{
    let f = i as f32;
    let after = z_at(p.a, p.b, f + 1.0);
    if last.at + 1 == i {
        return Zs {
            at: i,
            before: last.z,
            z: last.after,
            after,
        };
    }
    Zs {
        at: i,
        before: z_at(p.a, p.b, f - 1.0),
        z: z_at(p.a, p.b, f),
        after,
    }
}
