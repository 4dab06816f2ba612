// The notation of bytes, read piece by piece into a buffer. Each function stores bytes at the front of what it is lent, and answers how many, or None.
ghost use Rattle.std.specs.Prelude.{◌≡◌, drop};
ghost use Rattle.test_text.specs.Notation.{pair_of, pairs_of, is_bytes, times_of, count_of, piece_of, pieces_of, Left};

use crate::{decimal, find, nibble, part};

// Stores the byte that two hexadecimal digits say.
fn pair(high: u8, low: u8, buf: &mut [u8]) -> Option<usize>
    ensures { Left (pair_of high low) 0 buf.old result buf.new }
{
    let a = nibble(high)?;
    let b = nibble(low)?;
    *buf.first_mut()? = a * 16 + b;
    Some(1)
}

// Stores the bytes that pairs of hexadecimal digits say. A loop over what is left: each turn takes a pair from its front, and the last one leaves one digit or
// none.
fn pairs(text: &[u8], buf: &mut [u8]) -> Option<usize>
    ensures { Left (pairs_of text.now) 0 buf.old result buf.new }
{
    let mut n: usize = 0;
    let mut rest = text;
    while let Some(([high, low], behind)) = rest.split_first_chunk::<2>() {
        n += pair(*high, *low, &mut buf[n..])?;
        rest = behind;
    }
    if rest.is_empty() { Some(n) } else { None }
}

// Whether a text is pairs of hexadecimal digits.
fn are_pairs(text: &[u8]) -> bool
    ensures { result ≡ is_bytes (pairs_of text.now) }
{
    text.len() % 2 == 0 && text.iter().all(|x| nibble(*x).is_some())
}

// Stores the bytes of pairs so many times. The counter has a name, since the loop's invariant speaks of it.
fn times(count: usize, text: &[u8], buf: &mut [u8]) -> Option<usize>
    ensures { Left (times_of count (pairs_of text.now)) 0 buf.old result buf.new }
{
    let mut n: usize = 0;
    for i in 0..count {
        n += pairs(text, &mut buf[n..])?;
    }
    Some(n)
}

// The count of a piece whose pairs end at a place: 1 where nothing is behind them.
#[tactic(auto, using(crate::proofs::Reading::count_none, crate::proofs::Reading::count_some))]
fn count(text: &[u8], at: usize) -> Option<usize>
    ensures { result ≡ count_of (drop at text.now) }
{
    if text.len() <= at {
        return Some(1);
    }
    decimal(&text[at + 1..])
}

// Stores the bytes of a piece.
fn piece(text: &[u8], buf: &mut [u8]) -> Option<usize>
    ensures { Left (piece_of text.now) 0 buf.old result buf.new }
{
    let star = find(text, b'*', 0);
    let digits = part(text, 0, star);
    if star == 0 || !are_pairs(digits) {
        return None;
    }
    times(count(text, star)?, digits, buf)
}

// Stores the bytes of pieces with a `.` between them.
pub(crate) fn pieces(text: &[u8], buf: &mut [u8]) -> Option<usize>
    ensures { Left (pieces_of text.now) 0 buf.old result buf.new }
{
    let mut n: usize = 0;
    for text in text.split(|x| *x == b'.') {
        n += piece(text, &mut buf[n..])?;
    }
    Some(n)
}
