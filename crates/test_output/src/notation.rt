// Bytes as they are said: an `x`, then pieces with a `.` between them. A piece is pairs of hexadecimal digits, or one pair with `*COUNT` behind
// it, which stands for that byte COUNT times. `bytes` in test_text reads this back, and more.
use crate::{STDOUT, numbered, text};

fn pair(x: u8) {
    io::print_hex(STDOUT, x as u64, 2);
}

// Says a run of equal bytes: five or more in a piece of its own, fewer as pairs. `before` is the length of the run before, 0 at the start: a run
// has one byte or more, so it is no `Option`.
fn say_run(run: &[u8], before: usize) {
    if run.len() < 5 {
        if 4 < before {
            text(b".");
        }
        for x in run {
            pair(*x);
        }
    } else {
        if 0 < before {
            text(b".");
        }
        pair(run[0]);
        numbered(b"*", run.len());
    }
}

// Says bytes in the one form that is given back: a run of 5 or more equal bytes is a piece of its own, the others stand as pairs.
pub(crate) fn say(s: &[u8]) {
    text(b"x");
    let mut before: usize = 0;
    for run in s.chunk_by(|x, y| *x == *y) {
        say_run(run, before);
        before = run.len();
    }
}
