// Answers the cases on standard input, one a line: each line is written back with the library's answers behind its calls. docs/TESTS.md has the form of a case, and
// says where the stored answers come from.
// The modules, from the input on: lines (cuts it into lines and calls), call and word (read a call), walker_rows (the calls that have a state), tables (hands the others
// to the crates test_journal, test_filestore and test_formats). test_answers says what they answer.
#![tactic(auto)]

mod call;
mod lines;
mod tables;
mod walker_rows;
mod word;

use dump_io::{Failure, room};
use lines::Rooms;
use std::io::Stdout;
use test_text::part;

// The file descriptor of standard error.
const STDERR: i32 = 2;

// Room for the input, all of it.
const INPUT: usize = 524288;

// Writes each line of standard input back, a case with its answers. An input that fills the room may be longer, and none of it is answered.
fn run(out: &mut Stdout, input: &[u8]) -> std::io::Result<()> {
    if input.len() == INPUT {
        io::write_all(STDERR, b"the input is too long\n");
        return Ok(());
    }
    let mut rooms = Rooms {
        a: room(),
        b: room(),
        held: room(),
    };
    lines::run(out, input, &mut rooms)
}

// Of an input that cannot be read to its end nothing is answered.
fn main(rt: HostRuntime) -> Result<(), Failure> {
    let mut input = room::<INPUT>();
    let n = dump_io::read_input(&mut rt.stdin(), &mut input).map_err(Failure::Input)?;
    run(&mut rt.stdout(), part(&input, 0, n)).map_err(Failure::Output)
}
