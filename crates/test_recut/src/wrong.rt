// Compares the walks of one cut with lists that are wrong on purpose, so that it is seen that each comparison finds what it is there for.
// A cut and the list go together through this module: both are structs, and a third for both would be taken apart in each function.
use crate::cuts;
use crate::cuts::Totals;
use crate::due::{Cut, List, Thing, Wrong};
use dump_io::room;
use test_output::recut;
use test_output::recut::Difference;

// What is said of the cut c by the list with w wrong.
fn said(w: Wrong, c: Cut, list: List) -> Result<(), Difference> {
    let mut b = room::<65536>();
    cuts::NO_CUTS.tried(c, list.with(Some(w)), &mut b).what
}

// What is said of a wrong end. An end is a place, a number of bytes, and whether it is whole: w has the place wrong, and the two others are wrong
// in a list of their own. The answer is what is said of all three lists, or that nothing differs where that is not one and the same.
fn said_of_three(
    w: Wrong,
    bytes: Thing,
    whole: Thing,
    c: Cut,
    list: List,
) -> Result<(), Difference> {
    let what = said(w, c, list);
    if said(w.of(bytes), c, list) != what || said(w.of(whole), c, list) != what {
        return Ok(());
    }
    what
}

// What is said of what w has wrong: of a place at the end, with the rest of that end.
fn said_of(w: Wrong, c: Cut, list: List) -> Result<(), Difference> {
    match w.what {
        Thing::End => said_of_three(w, Thing::Bytes, Thing::Whole, c, list),
        Thing::Summary => said_of_three(w, Thing::SummaryBytes, Thing::SummaryWhole, c, list),
        _ => said(w, c, list),
    }
}

// The list in which one thing is wrong, which has a name. The record with the number m is the one that is appended.
fn one(name: &[u8], w: Wrong, c: Cut, list: List) {
    recut::wrong(name, w.record == c.m, w.more, said_of(w, c, list));
}

// The two lists in which one thing is wrong, of the record with a number or of the end behind it.
fn pair(name: &[u8], what: Thing, record: usize, c: Cut, list: List) {
    for more in [true, false] {
        one(name, Wrong { record, what, more }, c, list);
    }
}

// The lists in which a record is wrong.
fn of_record(record: usize, c: Cut, list: List) {
    pair(b"place", Thing::Place, record, c, list);
    pair(b"type", Thing::Type, record, c, list);
    pair(b"start", Thing::Start, record, c, list);
    pair(b"length", Thing::Length, record, c, list);
    pair(b"next", Thing::Next, record, c, list);
    pair(b"value", Thing::Value, record, c, list);
}

// The lists in which the end behind it is wrong. One has a record that is not there.
fn of_end(record: usize, c: Cut, list: List) {
    let records = Wrong {
        record,
        what: Thing::Records,
        more: true,
    };
    one(b"records", records, c, list);
    pair(b"end", Thing::End, record, c, list);
    pair(b"count", Thing::Count, record, c, list);
    pair(b"summary", Thing::Summary, record, c, list);
}

// The cut c by the list as it stands, in a part of b that is one byte too short for the record that is appended.
fn short(c: Cut, list: List, b: &mut [u8]) -> Totals {
    let end = c.appended().next;
    if end < 1 || b.len() < end {
        return cuts::NO_CUTS;
    }
    cuts::NO_CUTS.tried(c, list, &mut b[..end - 1])
}

// What is said of that.
fn of_room(c: Cut, list: List) {
    let mut b = room::<65536>();
    recut::wrong(b"room", false, false, short(c, list, &mut b).what);
}

// The lists, at the cut behind the record in the middle: for the walk of the cut, for the walk after the append, and for the append.
pub fn all(list: List) {
    let middle = list.ends.len() / 2;
    if middle < list.ends.len() {
        let end = list.ends[middle];
        let c = Cut {
            k: end,
            m: middle.saturating_add(1),
            place: end,
        };
        of_record(middle, c, list);
        of_end(middle, c, list);
        of_record(c.m, c, list);
        of_end(c.m, c, list);
        of_room(c, list);
    }
}
