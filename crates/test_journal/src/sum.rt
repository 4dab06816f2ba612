// Says what a long listing is: its size, its checksum, its first two lines and its last.
use dump_io::room;
use listing::{At, Part, fill};
use test_output::text;
use test_text::{checksum, part};

// The pieces of a listing together.
#[derive(Clone, Copy, PartialEq, Eq)]
struct Sum {
    lines: usize,
    bytes: usize,
    checksum: u64,
}

impl Sum {
    fn with(self, piece: &[u8]) -> Sum {
        Sum {
            lines: self
                .lines
                .wrapping_add(piece.split_inclusive(|x| *x == b'\n').count()),
            bytes: self.bytes.wrapping_add(piece.len()),
            checksum: checksum(self.checksum, piece),
        }
    }
}

// The listing of a journal by the pieces that out has room for, and the length of the last one, which is in out then. Each turn asks `fill` where to go on.
fn through(journal: &[u8], out: &mut [u8]) -> (Sum, usize) {
    let mut sum = Sum {
        lines: 0,
        bytes: 0,
        checksum: 0,
    };
    let mut last: usize = 0;
    let mut here = At::Start;
    while let Ok(Part { len, at }) = fill(journal, here, out) {
        if len == 0 {
            break;
        }
        sum = sum.with(part(out, 0, len));
        last = len;
        here = at;
    }
    (sum, last)
}

fn say_number(what: &[u8], x: usize) {
    test_output::numbered(what, x);
    test_output::line_end();
}

// The first two lines of the listing.
fn say_start(journal: &[u8], out: &mut [u8]) {
    if let Ok(Part { len, at: _ }) = fill(journal, At::Start, out) {
        for line in part(out, 0, len).split_inclusive(|x| *x == b'\n').take(2) {
            text(line);
        }
    }
}

// From a new line on; or `pieces differ`, where the listing through a small buffer and that through a large one, arrays both, are not alike.
pub(crate) fn say(journal: &[u8]) {
    test_output::line_end();
    let mut small = [0u8; 133];
    let mut large = room::<65536>();
    let (sum, last) = through(journal, &mut small);
    let (same, _) = through(journal, &mut large);
    if sum != same {
        return text(b"pieces differ\n");
    }
    say_number(b"lines ", sum.lines);
    say_number(b"bytes ", sum.bytes);
    say_number(b"checksum ", sum.checksum as usize);
    say_start(journal, &mut large);
    if let Some(line) = part(&small, 0, last)
        .split_inclusive(|x| *x == b'\n')
        .last()
    {
        text(line);
    }
}
