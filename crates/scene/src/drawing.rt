// The panel: four strips, three of them of traces, each with a dial beside it. The fourth is a channel that is
// shown as faulty: a fault mark stands in the place of its trace. The path of each part is that of paths.rt.
use super::pen::{Pen, start};
use super::{letters, readings};

// The strips begin here, are so wide and high, and lie so far apart.
const LEFT: f32 = 40.0;

const TOP: f32 = 32.0;

const WIDE: f32 = 680.0;

const HIGH: f32 = 104.0;

const APART: f32 = 128.0;

// The lines of rest of the first two strips and of the third, and the fourth's top.
const REST_1: f32 = 136.0;

const REST_2: f32 = 264.0;

const REST_3: f32 = 340.0;

const TOP_4: f32 = 416.0;

// From one reading to the next, and what one more is high.
const STEP: f32 = 10.0;

const UNIT: f32 = 0.40625;

// The first dial's middle, the dials' units and the hubs'.
const DIAL_X: f32 = 840.0;

const DIAL_Y: f32 = 84.0;

const DIAL: f32 = 0.4375;

const INNER: f32 = 0.40625;

const NEEDLE: f32 = 0.359375;

const HUB: f32 = 0.15625;

fn ground(pen: Pen) -> Pen {
    pen.of(0)
        .block(0.0, 0.0, 960.0, 544.0)
        .of(1)
        .blocks(4, LEFT, TOP, WIDE, HIGH, 0.0, APART)
}

// The alarm: over a height in the first two strips, on either side of rest in the third.
fn alarms(pen: Pen) -> Pen {
    pen.of(2)
        .blocks(2, LEFT, TOP, WIDE, 26.0, 0.0, APART)
        .blocks(2, LEFT, 288.0, WIDE, 15.0, 0.0, 89.0)
}

fn grid(pen: Pen) -> Pen {
    pen.of(3)
        .blocks(8, 120.0, TOP, 1.0, HIGH, 80.0, 0.0)
        .blocks(8, 120.0, 160.0, 1.0, HIGH, 80.0, 0.0)
        .blocks(8, 120.0, 288.0, 1.0, HIGH, 80.0, 0.0)
        .blocks(3, LEFT, 84.0, WIDE, 1.0, 0.0, APART)
}

// Two beams, one before the other.
fn beams(pen: Pen) -> Pen {
    pen.of(4)
        .trace(&readings::TREBLE, LEFT, REST_1, STEP, UNIT, 0.0)
        .of(5)
        .trace(&readings::TENOR, LEFT, REST_1, STEP, UNIT, 0.0)
}

// Two gauges of one sill: both in one path leave, by the even-odd rule, the gap between them.
fn sill(pen: Pen) -> Pen {
    pen.of(6)
        .trace(&readings::SOUTH, LEFT, REST_2, STEP, UNIT, 0.0)
        .of(7)
        .trace(&readings::NORTH, LEFT, REST_2, STEP, UNIT, 0.0)
        .trace(&readings::SOUTH, LEFT, REST_2, STEP, UNIT, 0.0)
}

fn tower(pen: Pen) -> Pen {
    pen.of(8)
        .trace(&readings::SWING, LEFT, REST_3, STEP, UNIT, 128.0)
        .of(9)
        .trace(&readings::ECHO, LEFT, REST_3, STEP, UNIT, 128.0)
}

fn axes(pen: Pen) -> Pen {
    pen.of(10)
        .blocks(4, 37.0, TOP, 3.0, 107.0, 0.0, APART)
        .blocks(2, LEFT, REST_1, WIDE, 3.0, 0.0, APART)
        .block(LEFT, 339.25, WIDE, 1.5)
        .block(LEFT, 520.0, WIDE, 3.0)
}

// An outline at each dial.
fn thrice(pen: Pen, points: &[u8], unit: f32) -> Pen {
    pen.outline(points, DIAL_X, DIAL_Y, unit)
        .outline(points, DIAL_X, DIAL_Y + APART, unit)
        .outline(points, DIAL_X, DIAL_Y + APART + APART, unit)
}

fn faces(pen: Pen) -> Pen {
    let face = thrice(pen.of(11), &readings::CIRCLE, DIAL);
    thrice(face.of(12), &readings::WEDGE, DIAL)
}

// A ring is two circles in one path, by the even-odd rule.
fn rings(pen: Pen) -> Pen {
    let outer = thrice(pen.of(13), &readings::CIRCLE, DIAL);
    thrice(outer, &readings::CIRCLE, INNER)
}

fn needles(pen: Pen) -> Pen {
    pen.of(14)
        .outline(&readings::QUIET, DIAL_X, DIAL_Y, NEEDLE)
        .outline(&readings::RISING, DIAL_X, DIAL_Y + APART, NEEDLE)
        .outline(&readings::ALARM, DIAL_X, DIAL_Y + APART + APART, NEEDLE)
}

// A star at each hub: its middle is empty by the even-odd rule, and full by the other.
fn hubs(pen: Pen) -> Pen {
    pen.of(15)
        .outline(&readings::STAR, DIAL_X, DIAL_Y, HUB)
        .outline(&readings::STAR, DIAL_X, DIAL_Y + APART + APART, HUB)
        .of(16)
        .outline(&readings::STAR, DIAL_X, DIAL_Y + APART, HUB)
}

// Above each strip its beams' names.
fn names(pen: Pen) -> Pen {
    pen.of(17)
        .word(b"TREBLE", LEFT, 13.0, 1.0)
        .word(b"TENOR", 136.0, 13.0, 1.0)
        .word(b"SILL", LEFT, 141.0, 1.0)
        .word(b"TOWER", LEFT, 269.0, 1.0)
        .word(b"WALL", LEFT, 397.0, 1.0)
}

// Seven bars of a fault mark, from x on.
fn bars(mut pen: Pen, x: f32) -> Pen {
    for i in 0..7u8 {
        pen = pen.outline(&letters::BAR, x + 47.0 * f32::from(i), TOP_4, 1.0);
    }
    pen
}

// The fault mark: hatching in a colour that no trace has, and the word in the dial's place.
fn fault(pen: Pen) -> Pen {
    bars(bars(pen.of(18), 42.0), 371.0).word(b"FAULT", 778.0, 454.0, 2.0)
}

pub(crate) fn panel() -> Pen {
    let strips = grid(alarms(ground(start())));
    let traces = axes(tower(sill(beams(strips))));
    let dials = hubs(needles(rings(faces(traces))));
    fault(names(dials))
}
