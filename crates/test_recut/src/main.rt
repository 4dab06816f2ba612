// Runs demand 3 on the records listed on standard input: the library writes them one behind another, and for every k the first k bytes are
// kept, walked, appended to at the place that the walk tells, and walked again. Each walk is compared with the list, and not with another walk.
//
// A line of the list is a record: 1 to 256 bytes in the notation of the case form, the first the type byte and the others the value. A line that
// is empty or begins with a # is passed over. The list has fewer than 65,536 bytes and at most 32,768 records. From the place of each record on
// there are 514 bytes within the walk's limit of 65,536, which is room for it and for the one that is appended, whatever their lengths. Any other
// list is refused.
//
// The program says how many records and bytes there are, a checksum of the journal, how many cuts were tried and how their walks ended, the
// sums over all cuts of the records listed and of the bytes behind the told place, the records appended, and the sums of the records listed
// after the append and of the places where the journals end then, each as a summary tells it. Then comes `all as written`, or the first cut at
// which something differs, what, and the listing of the journal that was walked there.
//
// Then it tests its own comparisons, at the cut behind the record in the middle. The walk of the cut is compared with lists in which one thing
// of its last record or of its end is wrong: a number by one, upwards and downwards, or a `whole` turned round, or one record is too many. The
// walk after the append is compared with such lists too; its last record is the one that is appended. At last the buffer is one byte too short
// for that record. The program says of each what differs. An end has one line for its place, its bytes and its `whole`, which are wrong in a
// list each; the line names a difference if all three lists give it. All of them go through `Totals::tried`, as every cut of the sound list
// does. No list tests the two comparisons of `cuts::written`.
//
// In all modules a is the journal as the list has it, laid out by counting, and ends are the ends of its records: both are in the `List`. b is the journal that is
// written, cut and appended to. The modules, from the input on: list (reads it), due (what is due of a walk by the list), check (one walk against
// that), cuts (writes, cuts and appends), wrong (the lists that are wrong on purpose), say. The crate test_output has
// the words.
#![tactic(auto)]

mod check;
mod cuts;
mod due;
mod list;
mod say;
mod wrong;

ghost use Rattle.std.specs.Prelude.{◌≡◌, length};

use due::List;
use dump_io::{Failure, room};
use std::io::Stdout;
use test_output::recut;
use test_text::{checksum, part};

// Room for the ends of the records: an array, since there is no heap, and no `room` of dump_io, which is of bytes. The clause is what lending the array as a
// slice needs.
fn ends_room() -> [usize; 32768]
    ensures { 32768 ≡ length result }
{
    [0; 32768]
}

// Writes the journal of n bytes that is listed, tries every cut of it, and then the lists that are wrong on purpose.
fn run(out: &mut Stdout, list: List, n: usize) -> std::io::Result<()> {
    let mut b = room::<65536>();
    if !cuts::written(list, &mut b) {
        recut::not_written();
        return Ok(());
    }
    let sum = checksum(0, part(&b, 0, n));
    recut::journal(list.ends.len(), n, sum as usize);
    let t = cuts::all(list, n, &mut b);
    say::tried(t);
    if t.what.is_err() {
        dump_io::list(part(&b, 0, t.walked), out)?;
    }
    wrong::all(list);
    Ok(())
}

// Reads the list that is the text, and runs what it asks for.
fn read(out: &mut Stdout, text: &[u8]) -> std::io::Result<()> {
    let mut a = room::<65536>();
    let mut ends = ends_room();
    match list::read(text, &mut a, &mut ends) {
        Ok(reading) if text.len() < 65536 && reading.count <= ends.len() => {
            let list = List {
                a: &a,
                ends: &ends[..reading.count],
                wrong: None,
            };
            run(out, list, reading.place)
        }
        Ok(_) => {
            recut::bad_list(text.len());
            Ok(())
        }
        Err(at) => {
            recut::bad_list(at);
            Ok(())
        }
    }
}

fn main(rt: HostRuntime) -> Result<(), Failure> {
    let mut text = room::<65536>();
    let size = dump_io::read_input(&mut rt.stdin(), &mut text).map_err(Failure::Input)?;
    read(&mut rt.stdout(), part(&text, 0, size)).map_err(Failure::Output)
}
