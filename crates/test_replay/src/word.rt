// A word of a call, read: its letter, and the numbers that it stands for.
use lv::Lv;
use test_text::{Words, decimal, find, part};

// A number up to 8 is Small, one up to 255 an Octet, any other a Number; Standard and Custom are types, Bytes are read elsewhere.
#[derive(Clone, Copy)]
pub enum Word {
    Small(usize),
    Octet(usize),
    Number(usize),
    Standard(usize),
    Custom(usize),
    Second(Option<Lv>),
    Bytes,
}

// The words with one more number.
fn with(mut w: Words, x: usize) -> Words {
    w.rotate_left(1);
    w[8] = x;
    w
}

impl Word {
    // Its letter in a key.
    pub fn letter(self) -> u8 {
        match self {
            Word::Small(_) => b'A',
            Word::Octet(_) => b'O',
            Word::Number(_) => b'N',
            Word::Standard(_) => b'T',
            Word::Custom(_) => b'F',
            Word::Second(_) => b'M',
            Word::Bytes => b'X',
        }
    }

    // The words with its numbers behind. That of a custom type is 256 more than its label. A second name has three: 1 where it is there, and its span.
    pub fn behind(self, w: Words) -> Words {
        match self {
            Word::Small(x) | Word::Octet(x) | Word::Number(x) | Word::Standard(x) => with(w, x),
            Word::Custom(x) => with(w, x.saturating_add(256)),
            Word::Second(Some(name)) => with(with(with(w, 1), name.start), name.len),
            Word::Second(None) => with(with(with(w, 0), 0), 0),
            Word::Bytes => w,
        }
    }
}

fn number(text: &[u8]) -> Option<Word> {
    let x = decimal(text)?;
    match x {
        0..=8 => Some(Word::Small(x)),
        9..=255 => Some(Word::Octet(x)),
        _ => Some(Word::Number(x)),
    }
}

fn standard(text: &[u8]) -> Option<Word> {
    let x = decimal(text)?;
    match x {
        0 | 1 | 2 | 4 | 5 | 6 => Some(Word::Standard(x)),
        _ => None,
    }
}

fn custom(text: &[u8]) -> Option<Word> {
    let x = decimal(text)?;
    match x {
        0..=255 => Some(Word::Custom(x)),
        _ => None,
    }
}

// A second name's span: its start and its length.
fn second(start: &[u8], len: &[u8]) -> Option<Word> {
    let start = decimal(start)?;
    let len = decimal(len)?;
    Some(Word::Second(Some(Lv { start, len })))
}

// None where a text is no word.
pub(crate) fn read(text: &[u8]) -> Option<Word> {
    match text {
        [b'x', ..] => Some(Word::Bytes),
        [b's', digits @ ..] => standard(digits),
        [b'c', digits @ ..] => custom(digits),
        [b'-'] => Some(Word::Second(None)),
        [b'-', ..] => None,
        _ => {
            let plus = find(text, b'+', 0);
            if plus < text.len() {
                second(part(text, 0, plus), part(text, plus + 1, text.len()))
            } else {
                number(text)
            }
        }
    }
}
