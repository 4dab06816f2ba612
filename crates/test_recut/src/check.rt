// One walk against what is due: each record stands at its place, then the end, and the summary says the same.
use crate::due::{Cut, Due, Last, List, Stop, Thing};
use test_output::recut::Difference;
use test_text::part;
use walk::{End, Record, Step};

// What the walk of s found, and where it goes on, against what is due.
fn found(s: &[u8], r: Record, next: usize, due: Due, a: &[u8]) -> Result<(), Difference> {
    if r.place != due.place {
        return Err(Difference::Place);
    }
    if r.tlv_type != due.tlv_type {
        return Err(Difference::Type);
    }
    if r.value.start != due.start || r.value.len != due.len {
        return Err(Difference::Span);
    }
    if next != due.next {
        return Err(Difference::Next);
    }
    if r.value(s) != part(a, due.from, due.from.saturating_add(due.len)) {
        return Err(Difference::Value);
    }
    Ok(())
}

// Compares what the walk of s has at a place, where a record is due.
fn record(s: &[u8], place: usize, due: Due, a: &[u8]) -> Result<(), Difference> {
    match walk::step_at(s, place) {
        Ok(Step::Record { record, next }) => found(s, record, next, due, a),
        _ => Err(Difference::NoRecord),
    }
}

// Compares the first n records of a cut, which are due by the list, each at the place where the one before it ends.
fn records(s: &[u8], c: Cut, n: usize, list: List) -> Result<(), Difference> {
    let mut place: usize = 0;
    for i in 0..n {
        let due = c.record(i, place, list).ok_or(Difference::NoRecord)?;
        record(s, place, due.by(list, i), list.a)?;
        place = due.next;
    }
    Ok(())
}

fn stop_of(e: End) -> Stop {
    match e {
        End::Whole(place) => Stop {
            place,
            bytes: place,
            whole: true,
        },
        End::Cut { place, behind } => Stop {
            place,
            bytes: place.saturating_add(behind),
            whole: false,
        },
    }
}

// Compares the end of the walk of s, which is due by the list, and gives what the summary tells.
fn ended(s: &[u8], last: Last, list: List) -> Result<Last, Difference> {
    let Ok(Step::End(end)) = walk::step_at(s, last.stop.place) else {
        return Err(Difference::End);
    };
    if stop_of(end) != last.by_step(list) {
        return Err(Difference::End);
    }
    let due = last.by_summary(list);
    let summary = walk::summary_of(s).or(Err(Difference::Count))?;
    if summary.count != due.count {
        return Err(Difference::Count);
    }
    let stop = stop_of(summary.end);
    if stop != due.stop {
        return Err(Difference::SummaryEnd);
    }
    Ok(Last {
        count: summary.count,
        stop,
    })
}

// What differs first in the walk of s, where the records of a cut and then an end are due, by the list; or what its summary tells.
pub fn walked(s: &[u8], c: Cut, last: Last, list: List) -> Result<Last, Difference> {
    let at_end = list.of_end(last.count);
    records(s, c, at_end.number(Thing::Records, last.count), list)?;
    ended(s, last, at_end)
}
