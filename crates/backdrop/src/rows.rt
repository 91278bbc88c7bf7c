// The rows of one path: whether their running sums stay in i32, and the sums themselves.
ghost use Rattle.std.specs.Prelude.{◌≡◌, true, ◌+◌, ◌-◌, ◌*◌, ◌≤◌, length, pos};
ghost use Rattle.panel.specs.Limits.{edge_most};
ghost use Rattle.panel.specs.Paths.{end_of};
ghost use Rattle.backdrop.specs.Calm.{calm_from};
ghost use Rattle.panel.specs.Signed.{in_i32};
ghost use Rattle.backdrop.specs.Backdrop.{row_fits, row_sums, rows_fit, path_fits, path_sums};

use panel::kinds::Path;

// The ends of i32, in 64 bits.
const LEAST: i64 = i32::MIN as i64;

const MOST: i64 = i32::MAX as i64;

fn in_i32(x: i64) -> bool
    ensures { result ≡ in_i32 x }
{
    (LEAST <= x) & (x <= MOST)
}

// No box is so wide that backdrops between these could bring a row's sums out of i32.
const CALM_LEAST: i32 = -262144;

const CALM_MOST: i32 = 262144;

// Whether all backdrops from `at` up to `end` are that small: one quick pass, and nearly always so.
fn calm(backdrops: &[i32], at: usize, end: usize) -> bool
    requires { (at ≤ end) × (end ≤ length backdrops.now) }
    ensures { result ≡ calm_from (end - at) at backdrops.now }
{
    let mut ok = true;
    for i in at..end {
        let b = backdrops[i];
        ok = ok & ((CALM_LEAST <= b) & (b <= CALM_MOST));
    }
    ok
}

// Whether the running sums of the tiles from `at` up to `end` stay in i32.
fn row_fits(backdrops: &[i32], at: usize, end: usize) -> bool
    requires { (at ≤ end) × (end ≤ length backdrops.now) }
    ensures { result ≡ row_fits (end - at) at (pos 0) backdrops.now }
{
    let mut sum: i64 = 0;
    for i in at..end {
        sum = sum + backdrops[i] as i64;
        if !in_i32(sum) {
            return false;
        }
    }
    true
}

// The running sums of the tiles from `at` up to `end`.
fn sum_row(backdrops: &mut [i32], at: usize, end: usize)
    requires { (at ≤ end) × (end ≤ length backdrops.old) × (row_fits (end - at) at (pos 0) backdrops.old ≡ true) }
    ensures { backdrops.new ≡ row_sums (end - at) at (pos 0) backdrops.old }
{
    let mut sum: i32 = 0;
    for i in at..end {
        sum = sum + backdrops[i];
        backdrops[i] = sum;
    }
}

// Whether no running sum of the rows, each so wide and the first from `first` on, leaves i32.
fn rows_fit(backdrops: &[i32], first: usize, width: usize, height: usize) -> bool
    requires { first + height * width ≤ length backdrops.now }
    ensures { result ≡ rows_fit height width first backdrops.now }
{
    let mut at = first;
    for _y in 0..height {
        let end = at + width;
        if !row_fits(backdrops, at, end) {
            return false;
        }
        at = end;
    }
    true
}

// Whether no running sum of a path leaves i32.
pub fn path_fits(p: Path, backdrops: &[i32]) -> bool
    requires { (p.x0 ≤ p.x1) × (p.y0 ≤ p.y1) × (p.x1 ≤ edge_most) × (end_of p ≤ length backdrops.now) }
    ensures { result ≡ path_fits p backdrops.now }
{
    let width = (p.x1 - p.x0) as usize;
    let height = (p.y1 - p.y0) as usize;
    let first = p.first as usize;
    let past = first + width * height;
    if calm(backdrops, first, past) {
        return true;
    }
    rows_fit(backdrops, first, width, height)
}

// The running sums of a path's rows.
pub fn sum_path(p: Path, backdrops: &mut [i32])
    requires { (p.x0 ≤ p.x1) × (p.y0 ≤ p.y1) × (end_of p ≤ length backdrops.old) × (path_fits p backdrops.old ≡ true) }
    ensures { backdrops.new ≡ path_sums p backdrops.old }
{
    let width = (p.x1 - p.x0) as usize;
    let height = (p.y1 - p.y0) as usize;
    let mut at = p.first as usize;
    for _y in 0..height {
        let end = at + width;
        sum_row(backdrops, at, end);
        at = end;
    }
}
