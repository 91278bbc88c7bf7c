// Reads a binary Netpbm P6 file back. docs/RULES.md, "A picture on paper". Which headers are read is
// specs/Header.antt's header_of, and as a grammar specs/Grammar.antt's IsHeader; what a call answers is
// specs/Read.antt's readOf.
#![tactic(auto)]

ghost use Rattle.std.specs.Prelude.{◌≡◌, true, false, ◌+◌, ◌*◌, ◌≤◌, length, drop};
ghost use Rattle.std.proofs.lemmas.List.Edits.{sets};
ghost use Rattle.ppm_write.specs.Bytes.{ten, magic};
ghost use Rattle.ppm_read.specs.Bytes.{kind_of};
ghost use Rattle.ppm_read.specs.Header.{step_of, number_from, header_of, starts_with};
ghost use Rattle.ppm_read.specs.Read.{ReadMet};
ghost use Rattle.ppm_read.specs.Answer.{answer_told};
ghost use Rattle.ppm_read.specs.Held.{held, held_next, held_got, held_header, got_of, sized_of, Within, WithinHead};

use panel::limits;
use panel::refusals::Refusal;

const TEN: u32 = 10;

const MAGIC: &[u8] = b"P6";

const VERTICAL_TAB: u8 = 11;

const FORM_FEED: u8 = 12;

// What a byte is to a header: it starts a comment, ends a line, is other white space, or a digit.
#[derive(Clone, Copy)]
pub enum Kind {
    Hash,
    Line,
    Blank,
    Digit(u8),
    Other,
}

// Where the reading of a number stands: no white space yet, some, or digits that make this number.
#[derive(Clone, Copy)]
pub enum Stage {
    Start,
    Gap,
    Digits(u32),
}

// Where a byte leads: on, in a comment or not; to the number's end; or nowhere.
#[derive(Clone, Copy)]
pub enum Next {
    To(bool, Stage),
    Ends(u32),
    Bad,
}

#[tactic(auto, using(std::proofs::lemmas::Bool::Decides::nat_tests), unfolding(crate::specs::Bytes::kind_of))]
fn kind_of(b: u8) -> Kind
    ensures { result ≡ kind_of b }
{
    match b {
        b'#' => Kind::Hash,
        b'\n' | b'\r' => Kind::Line,
        b' ' | b'\t' | VERTICAL_TAB | FORM_FEED => Kind::Blank,
        b'0'..=b'9' => Kind::Digit(b - b'0'),
        _ => Kind::Other,
    }
}

// A digit more. A number over the limit stays over it: no file makes it wrap.
fn grown(n: u32, d: u8) -> u32
    ensures { held result ≡ held (n * ten + d) }
{
    if limits::SIDE_MOST < n {
        return n;
    }
    n * TEN + u32::from(d)
}

impl Stage {
    // White space outside comments: before a number, or after it.
    fn white(self) -> Next
        ensures { result ≡ step_of false self Kind.Blank }
    {
        match self {
            Stage::Start | Stage::Gap => Next::To(false, Stage::Gap),
            Stage::Digits(n) => Next::Ends(n),
        }
    }

    // A digit outside comments.
    fn digit(self, d: u8) -> Next
        ensures { held_next result ≡ held_next (step_of false self (Kind.Digit d)) }
    {
        match self {
            Stage::Start => Next::Bad,
            Stage::Gap => Next::To(false, Stage::Digits(u32::from(d))),
            Stage::Digits(n) => Next::To(false, Stage::Digits(grown(n, d))),
        }
    }

    // A byte outside comments.
    fn outside(self, kind: Kind) -> Next
        ensures { held_next result ≡ held_next (step_of false self kind) }
    {
        match kind {
            Kind::Hash => Next::To(true, self),
            Kind::Line | Kind::Blank => self.white(),
            Kind::Digit(d) => self.digit(d),
            Kind::Other => Next::Bad,
        }
    }

    // A byte within a comment, which its line's end ends.
    fn in_comment(self, kind: Kind) -> Next
        ensures { result ≡ step_of true self kind }
    {
        Next::To(!matches!(kind, Kind::Line), self)
    }

    fn step(self, comment: bool, kind: Kind) -> Next
        ensures { held_next result ≡ held_next (step_of comment self kind) }
    {
        if comment {
            self.in_comment(kind)
        } else {
            self.outside(kind)
        }
    }
}

// White space and a number, from a place of the file on: the number, and the place of the white space after it.
fn read_number(file: &[u8], from: usize) -> Option<(u32, usize)>
    ensures { (held_got (got_of file.now result) ≡ held_got (number_from false Stage.Start (drop from file.now))) × Within file.now result }
{
    let mut comment = false;
    let mut stage = Stage::Start;
    for at in from..file.len() {
        match stage.step(comment, kind_of(file[at])) {
            Next::To(c, s) => {
                comment = c;
                stage = s;
            }
            Next::Ends(n) => return Some((n, at)),
            Next::Bad => return None,
        }
    }
    None
}

fn is_magic(file: &[u8]) -> bool
    ensures { result ≡ starts_with magic file.now }
{
    file.starts_with(MAGIC)
}

// Width, height and the place of the raster.
fn header(file: &[u8]) -> Option<(u32, u32, usize)>
    ensures { (held_header (sized_of file.now result) ≡ held_header (header_of file.now)) × WithinHead file.now result }
{
    if !is_magic(file) {
        return None;
    }
    let (width, a) = read_number(file, MAGIC.len())?;
    let (height, b) = read_number(file, a)?;
    let (most, c) = read_number(file, b)?;
    if most != ppm_write::LARGEST {
        return None;
    }
    Some((width, height, c + 1))
}

// The bytes of the file from a place on, at the front of out.
fn copy(file: &[u8], from: usize, out: &mut [u8])
    requires { (from ≤ length file.now) × (length file.now ≤ from + length out.old) }
    ensures { out.new ≡ sets out.old 0 (drop from file.now) }
{
    // a loop: copy_from_slice compiles to memmove, which the archive may not need
    for at in from..file.len() {
        out[at - from] = file[at];
    }
}

// The raster of a file, at the front of the bytes lent; the picture's width and height.
pub fn read(file: &[u8], out: &mut [u8]) -> Result<(u32, u32), Refusal>
    ensures { ReadMet file.now out.old (answer_told result) out.new }
{
    let (width, height, from) = header(file).ok_or(Refusal::BadFile)?;
    if !(ppm_write::side_ok(width) & ppm_write::side_ok(height)) {
        return Err(Refusal::BadSize);
    }
    let size = width as usize * height as usize * ppm_write::PIXEL_BYTES;
    if file.len() - from != size {
        return Err(Refusal::BadFile);
    }
    if out.len() < size {
        return Err(Refusal::NoRoom);
    }
    copy(file, from, out);
    Ok((width, height))
}
