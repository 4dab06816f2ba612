// Small steps on text that the test programs share: digits and numbers, lines, the notation of bytes, rows, and a checksum.
// They take any arguments.
#![tactic(auto)]

mod notation;

ghost use Rattle.std.specs.Prelude.{◌≡◌, ◌+◌, length, drop};
ghost use Rattle.test_text.specs.Text.{nibble_of, stretch, before, line_at, next_line, no_case, stands_for, of_row, decimal_of, with_digit, sum_of};
ghost use Rattle.test_text.specs.Notation.{bytes_of, Left};

// The number of a hexadecimal digit, 0 to 9, a to f or A to F. None for any other byte. By hand, here and in `decimal`: the text is bytes, and std reads the
// digits of `char` and `str`.
#[tactic(auto, unfolding(crate::specs::Text::digit))]
pub fn nibble(x: u8) -> Option<u8>
    ensures { result ≡ nibble_of x }
{
    match x {
        b'0'..=b'9' => Some(x - 48),
        b'a'..=b'f' => Some(x - 87),
        b'A'..=b'F' => Some(x - 55),
        _ => None,
    }
}

// The bytes from start up to end, or none where there is no such part.
#[tactic(auto, unfolding(crate::specs::Text::stretch))]
pub fn part(s: &[u8], start: usize, end: usize) -> &[u8]
    ensures { result.now ≡ stretch start end s.now }
{
    s.get(start..end).unwrap_or(&[])
}

// The place of the first byte `what` at the place `from` or behind it. Where there is none it is the length of s, or `from` if that is larger: no `Option`,
// since its callers take the part up to that place.
#[tactic(auto, using(crate::proofs::Laws::before_end))]
pub fn find(s: &[u8], what: u8, from: usize) -> usize
    ensures { result ≡ from + before what (drop from s.now) }
{
    let Some(behind) = s.get(from..) else {
        return from;
    };
    from + behind
        .iter()
        .position(|x| *x == what)
        .unwrap_or(behind.len())
}

// The line that begins at a place, without its line end. A place past the end has no bytes.
#[tactic(auto, using(crate::proofs::Laws::line_in))]
pub fn line(text: &[u8], at: usize) -> &[u8]
    ensures { result.now ≡ line_at at text.now }
{
    part(text, at, find(text, b'\n', at))
}

// The place behind that line: behind its line end, or the end of the text. At the end of the text, and past it, the place itself.
#[tactic(auto, unfolding(crate::specs::Text::next_line))]
pub fn next_line(text: &[u8], at: usize) -> usize
    ensures { result ≡ next_line at text.now }
{
    let end = find(text, b'\n', at);
    if end < text.len() { end + 1 } else { end }
}

// Whether a line is no case: it is empty, or begins with a #.
#[tactic(auto, using(crate::proofs::Laws::no_case_none, crate::proofs::Laws::no_case_first))]
pub fn copied(line: &[u8]) -> bool
    ensures { result ≡ no_case line.now }
{
    line.is_empty() || line[0] == b'#'
}

// Whether a row's byte stands for a key's byte.
#[tactic(auto, unfolding(crate::specs::Text::stands_for))]
fn stands_for(row: u8, key: u8) -> bool
    ensures { result ≡ stands_for row key }
{
    row == key
        || match row {
            b'N' => key == b'O' || key == b'A',
            b'O' => key == b'A',
            b'F' => key == b'T',
            _ => false,
        }
}

// Whether a call's key is of a row. Both are a name, and behind a space a letter for each word: the row's N stands for O and A too, its O for A
// too, and its F for T too.
fn is_row(key: &[u8], row: &[u8]) -> bool
    ensures { result ≡ of_row key.now row.now }
{
    key.len() == row.len() && key.iter().zip(row).all(|(k, r)| stands_for(*r, *k))
}

// A number with a decimal digit behind its digits. None for any other byte, and for more than usize::MAX.
#[tactic(auto, using(crate::proofs::Laws::nibble_some, crate::proofs::Laws::nibble_none, crate::proofs::Laws::digit_bad, crate::proofs::Laws::digit_large, crate::proofs::Laws::digit_on))]
fn with_digit(x: usize, byte: u8) -> Option<usize>
    ensures { result ≡ with_digit x byte }
{
    let digit = nibble(byte)? as usize;
    if 9 < digit {
        return None;
    }
    x.checked_mul(10)?.checked_add(digit)
}

// Decimal digits, one or more, as a number. None for any other text, and for more than usize::MAX.
#[tactic(auto, using(crate::proofs::Laws::decimal_none, crate::proofs::Laws::decimal_some, crate::proofs::Laws::number_at, crate::proofs::Laws::number_step, crate::proofs::Laws::number_stop, crate::proofs::Laws::number_past))]
pub fn decimal(text: &[u8]) -> Option<usize>
    ensures { result ≡ decimal_of text.now }
{
    if text.is_empty() {
        return None;
    }
    let mut x: usize = 0;
    for byte in text {
        x = with_digit(x, *byte)?;
    }
    Some(x)
}

// Reads bytes that are written as an `x`, then pieces with a `.` between them. A piece is one or more pairs of hexadecimal digits, and behind
// them, where it stands several times, `*COUNT`: x05.00*255, x0501aa.0500*3. Some(n): the bytes are the first n of buf, and the rest of buf is as it was.
// None: the text is not in the notation, or has more bytes than buf has room for; buf may hold anything then.
pub fn bytes(text: &[u8], buf: &mut [u8]) -> Option<usize>
    ensures { Left (bytes_of text.now) 0 buf.old result buf.new }
{
    let pieces = text.strip_prefix(b"x")?;
    if pieces.is_empty() {
        return Some(0);
    }
    notation::pieces(pieces, buf)
}

// The largest prime below two to the 32.
const MODULUS: u64 = 4294967291;

// A checksum with more bytes: each of them counts, and so does its place.
#[tactic(auto, using(crate::proofs::Laws::sum_end, crate::proofs::Laws::sum_at), unfolding(crate::specs::Text::sum_of))]
pub fn checksum(before: u64, text: &[u8]) -> u64
    ensures { result ≡ sum_of before text.now }
{
    let mut x = before % MODULUS;
    for byte in text {
        x = (x * 257 + *byte as u64 + 1) % MODULUS;
    }
    x
}

// The last nine numbers of a call, in order: those of a call with two numbers are the last two. A type field is one number, 256 and more for a custom label, and a
// second name is three: 1 where it is there, its start and its length.
// All are numbers in one row, whatever they stand for: a row's name says that.
pub type Words = [usize; 9];

// A call, read. `key` is its name and the letters of its words. `left` has the words before the first bytes, and w all of them; a is the first bytes, and b the last:
// the same where a call has one word of bytes.
#[derive(Clone, Copy)]
pub struct Call<'a> {
    pub key: &'a [u8],
    pub left: Words,
    pub w: Words,
    pub a: &'a [u8],
    pub b: &'a [u8],
}

impl Call<'_> {
    // Whether it is of a row.
    pub fn is(&self, row: &[u8]) -> bool
        ensures { result ≡ of_row self.now.key.now row.now }
    {
        is_row(self.key, row)
    }

    // Whether its key begins so.
    pub fn begins(&self, front: &[u8]) -> bool
        ensures { result ≡ of_row (stretch 0 (length front.now) self.now.key.now) front.now }
    {
        is_row(part(self.key, 0, front.len()), front)
    }
}
