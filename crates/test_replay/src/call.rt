// A call, read: its key, which is its name and the letters of its words, its numbers, and its words of bytes.
use crate::word;
use crate::word::Word;
use test_text::{Words, find, part};

// n is the length of the key, which stands in a lent array. `left` has the words before the first bytes, and w all of them. `first` is the word of the first bytes, and `last` that of the
// last; a call without bytes has none there.
#[derive(Clone, Copy)]
pub struct Spelled<'a> {
    pub n: usize,
    pub left: Words,
    pub w: Words,
    pub first: &'a [u8],
    pub last: &'a [u8],
}

impl<'a> Spelled<'a> {
    // With one more word, whose letter stands behind the key. None where key has no room for it.
    fn with(mut self, word: Word, text: &'a [u8], key: &mut [u8]) -> Option<Spelled<'a>> {
        if key.len() <= self.n {
            return None;
        }
        key[self.n] = word.letter();
        self.n += 1;
        let w = self.w;
        if let Word::Bytes = word {
            if self.first.is_empty() {
                self.first = text;
                self.left = w;
            }
            self.last = text;
        }
        self.w = word.behind(w);
        Some(self)
    }
}

// Reads a call, and lays its key into the front of key. None where a word is none, or where key is too short.
pub(crate) fn read<'a>(text: &'a [u8], key: &mut [u8]) -> Option<Spelled<'a>> {
    let name = find(text, b' ', 0);
    let n = text.len().min(name.saturating_add(1));
    splice::put(key, 0, part(text, 0, n)).ok()?;
    let mut call = Spelled {
        n,
        left: [0; 9],
        w: [0; 9],
        first: &[],
        last: &[],
    };
    if name < text.len() {
        for word in part(text, n, text.len()).split(|x| *x == b' ') {
            call = call.with(word::read(word)?, word, key)?;
        }
    }
    Some(call)
}
