// The tables of the calls that have no state, by the front of a call's name, and the row of dump_io.
use std::io::{Result, Stdout};
use test_text::Call;

fn in_journal(call: &Call) -> bool {
    call.begins(b"walk")
        || call.begins(b"kind.")
        || call.begins(b"record.")
        || call.begins(b"listing.")
}

fn in_filestore(call: &Call) -> bool {
    call.begins(b"request.")
        || call.begins(b"response.")
        || call.begins(b"action.")
        || call.begins(b"second.")
}

// Makes a call, and says what it answers; out is standard output, for the row of dump_io, which lists a journal as the program dump does, from a new line on. A new
// crate of tables has its test here. A row stays a test of the key, as in test_formats.
pub(crate) fn say(out: &mut Stdout, call: &Call) -> Result<()> {
    if call.is(b"dump.list X") {
        test_output::line_end();
        return dump_io::list(call.a, out);
    }
    if in_journal(call) {
        test_journal::say(call);
    } else if in_filestore(call) {
        test_filestore::say(call);
    } else {
        test_formats::say(call);
    }
    Ok(())
}
