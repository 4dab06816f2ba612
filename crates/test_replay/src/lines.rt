// Answers the input, line by line, and a line call by call.
use crate::call::Spelled;
use crate::walker_rows::State;
use crate::{call, walker_rows};
use std::io::{Result, Stdout};
use test_output::text;
use test_text::{Call, bytes, copied, part};

// Room for the first and the last bytes of a call, and for the bytes that the state holds: arrays, since there is no heap, so a count of bytes goes beside each.
#[derive(Drop)]
pub struct Rooms {
    pub a: [u8; 66000],
    pub b: [u8; 66000],
    pub held: [u8; 66000],
}

// Reads a word of bytes into a room, and answers how many they are. No word is no bytes.
fn read(word: &[u8], room: &mut [u8]) -> Option<usize> {
    if word.is_empty() {
        return Some(0);
    }
    bytes(word, room)
}

// Reads a call, its key into key and its bytes into a and b, and answers how many bytes they are.
fn taken<'a>(
    text: &'a [u8],
    key: &mut [u8],
    a: &mut [u8],
    b: &mut [u8],
) -> Option<(Spelled<'a>, usize, usize)> {
    let spelled = call::read(text, key)?;
    let n = read(spelled.first, a)?;
    let m = read(spelled.last, b)?;
    Some((spelled, n, m))
}

// Answers a call, and gives the state after.
fn answer(out: &mut Stdout, state: State, text: &[u8], rooms: &mut Rooms) -> Result<State> {
    let mut key = [0u8; 64];
    let Some((spelled, n, m)) = taken(text, &mut key, &mut rooms.a, &mut rooms.b) else {
        test_output::bad();
        return Ok(state);
    };
    let call = Call {
        key: part(&key, 0, spelled.n),
        left: spelled.left,
        w: spelled.w,
        a: part(&rooms.a, 0, n),
        b: part(&rooms.b, 0, m),
    };
    walker_rows::say(out, state, &call, &mut rooms.held)
}

// Writes a case back, each of its calls with the answer behind it. The state goes from call to call. A space before a call is passed over. `first` is a flag,
// since a semicolon stands before each call but the first.
fn answered(out: &mut Stdout, line: &[u8], rooms: &mut Rooms) -> Result<()> {
    let mut state = walker_rows::new();
    let mut first = true;
    for call in line.split(|x| *x == b';') {
        if !first {
            text(b";");
        }
        first = false;
        text(call);
        text(b" = ");
        state = answer(out, state, call.strip_prefix(b" ").unwrap_or(call), rooms)?;
    }
    Ok(())
}

// Each line in its turn, written back, with its answers where it is a case. A last line that no line end follows counts as a line.
pub(crate) fn run(out: &mut Stdout, input: &[u8], rooms: &mut Rooms) -> Result<()> {
    for ended in input.split_inclusive(|x| *x == b'\n') {
        let line = ended.strip_suffix(b"\n").unwrap_or(ended);
        if copied(line) {
            text(line);
        } else {
            answered(out, line, rooms)?;
        }
        test_output::line_end();
    }
    Ok(())
}
