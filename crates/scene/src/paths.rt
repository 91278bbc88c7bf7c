// The scene's paths, in the order of painting: each one's box, first tile and beam, and its colour and fill rule.
// A colour is multiplied by its alpha, its low byte.
pub const COLS: u32 = 60;

pub const ROWS: u32 = 34;

// Box x0, y0, x1, y1 in tiles, then the first tile, then the beam's number: 0 for what is no gauge's. Both gauges of
// the sill are on one beam, and so are swing and echo. A fault mark has the number of the beam that it stands for.
pub const PATHS: [u32; 114] = [
    // ground
    0, 0, 60, 34, 0, 0,
    // fields
    1, 0, 46, 34, 2040, 0,
    // alarm bands
    1, 0, 46, 34, 3570, 0,
    // grid
    1, 0, 46, 34, 5100, 0,
    // treble
    1, 1, 46, 10, 6630, 11,
    // tenor
    1, 1, 46, 10, 7035, 12,
    // sill's south
    1, 9, 46, 18, 7440, 13,
    // sill's gap
    1, 9, 46, 18, 7845, 13,
    // swing
    1, 17, 46, 26, 8250, 14,
    // echo
    1, 17, 46, 26, 8655, 14,
    // axes
    1, 0, 46, 34, 9060, 0,
    // dials' faces
    48, 0, 57, 26, 10590, 0,
    // dials' alarm
    48, 0, 57, 26, 10824, 0,
    // dials' rings
    48, 0, 57, 26, 11058, 0,
    // needles
    48, 0, 57, 26, 11292, 0,
    // hubs
    48, 0, 57, 26, 11526, 0,
    // hub of the middle dial
    48, 0, 57, 26, 11760, 0,
    // labels
    1, 0, 46, 34, 11994, 0,
    // the wall's fault mark
    1, 25, 58, 34, 13524, 15,
];

// Colour, red in the high byte; then 0 for non-zero and 1 for even-odd.
pub const PAINTS: [u32; 38] = [
    // ground
    0x0e14_1eff,
    0,
    // fields
    0x1b26_36ff,
    0,
    // alarm bands
    0x3e11_1148,
    0,
    // grid
    0x191e_2328,
    0,
    // treble
    0x2f64_a0aa,
    0,
    // tenor
    0x936a_2396,
    0,
    // sill's south
    0x2a34_4278,
    0,
    // sill's gap
    0xd8b5_4edc,
    1,
    // swing
    0x8652_b3be,
    0,
    // echo
    0x2970_5782,
    1,
    // axes
    0xc8d6_e6ff,
    0,
    // dials' faces
    0x141c_28ff,
    0,
    // dials' alarm
    0x8123_2396,
    0,
    // dials' rings
    0xc8d6_e6ff,
    1,
    // needles
    0xfaf4_e6ff,
    0,
    // hubs
    0xfab4_3cff,
    1,
    // hub of the middle dial
    0xfab4_3cff,
    0,
    // labels
    0xc8d6_e6ff,
    0,
    // the wall's fault mark
    0xff2d_8aff,
    0,
];
