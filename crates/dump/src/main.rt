// Lists the journal on standard input: each whole record with its place, type, length and kind, and how the journal ends.
#![tactic(auto)]

use dump_io::Failure;

fn main(rt: HostRuntime) -> Result<(), Failure> {
    dump_io::list_input(&mut rt.stdin(), &mut rt.stdout())
}
