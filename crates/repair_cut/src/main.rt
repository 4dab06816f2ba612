// An example of a program over the library, run on samples/cut.tlv: it prints the names of a journal's first request, appends a response to that
// request, over the stump, and lists the journal that this makes.
#![tactic(auto)]

use dump_io::Failure;
use filestore_request::FilestoreRequestTlv;
use filestore_response::FilestoreResponseTlv;
use lv::Lv;
use repair::FirstRequest;
use std::io;
use std::io::{Stdout, Write};

fn line(out: &mut Stdout, text: &[u8]) -> io::Result<()> {
    out.write_all(text)?;
    out.write_all(b"\n")
}

// The names of a request, a line each.
fn print_names(out: &mut Stdout, request: FilestoreRequestTlv, bytes: &[u8]) -> io::Result<()> {
    line(out, request.first_name().value(bytes))?;
    if let Some(name) = request.second_name() {
        line(out, name.value(bytes))?;
    }
    Ok(())
}

// The response to a request that was carried out: its action and its names, status 0, and no message.
fn done(request: FilestoreRequestTlv) -> FilestoreResponseTlv {
    FilestoreResponseTlv {
        action_code: request.action_code(),
        status_code: 0,
        first_name: request.first_name(),
        second_name: request.second_name(),
        filestore_message: Lv::new_empty(),
    }
}

// Appends the response to a request to the journal, which is the first `used` bytes of the buffer, and lists what that makes. The names lie in src.
fn respond(
    out: &mut Stdout,
    journal: &mut [u8],
    used: usize,
    request: FilestoreRequestTlv,
    src: &[u8],
) -> io::Result<()> {
    match repair::append_response(journal, used, done(request), src) {
        Ok(n) => dump_io::list(&journal[..n], out),
        Err(_) => line(out, b"refused"),
    }
}

// The request is read from a copy of the journal, so that its names can be lent while the journal is written to.
fn run(out: &mut Stdout, copy: &[u8], journal: &mut [u8]) -> io::Result<()> {
    match repair::first_request(copy) {
        Ok(Some(FirstRequest { place, request })) => {
            let bytes = &copy[place..];
            print_names(out, request, bytes)?;
            respond(out, journal, copy.len(), request, bytes)
        }
        Ok(None) => line(out, b"no request"),
        Err(_) => line(out, b"too long"),
    }
}

fn main(rt: HostRuntime) -> Result<(), Failure> {
    // room for the longest journal
    let mut journal = dump_io::room::<65536>();
    let used = dump_io::read_input(&mut rt.stdin(), &mut journal).map_err(Failure::Input)?;
    let copy = journal;
    run(&mut rt.stdout(), &copy[..used], &mut journal).map_err(Failure::Output)
}
