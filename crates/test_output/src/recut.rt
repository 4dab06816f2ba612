// What the program test_recut says.
ghost use Rattle.std.specs.Prelude.{◌≡◌};

use crate::{count, either, text};

// What may differ between a walk and what is due of it. The writer's refusal of the record that is appended counts as a difference.
#[derive(Clone, Copy, PartialEq, Eq)]
pub enum Difference {
    NoRecord,
    Place,
    Type,
    Span,
    Value,
    Next,
    End,
    Count,
    SummaryEnd,
    Refused,
}

// A line: a number and what it counts.
pub fn line(x: usize, what: &[u8])
    ensures { result ≡ tt }
{
    count(x);
    text(what);
}

pub fn bad_list(at: usize)
    ensures { result ≡ tt }
{
    line(at, b" bytes read: no list of records\n");
}

pub fn not_written()
    ensures { result ≡ tt }
{
    text(b"the journal that the library writes differs from the list\n");
}

// That nothing differs, or what does.
pub fn compared(x: Result<(), Difference>)
    ensures { result ≡ tt }
{
    match x {
        Ok(()) => text(b"nothing differs\n"),
        Err(Difference::NoRecord) => text(b"a record is not listed\n"),
        Err(Difference::Place) => text(b"the place of a record differs\n"),
        Err(Difference::Type) => text(b"a type byte differs\n"),
        Err(Difference::Span) => text(b"the span of a value differs\n"),
        Err(Difference::Value) => text(b"the bytes of a value differ\n"),
        Err(Difference::Next) => text(b"the place behind a record differs\n"),
        Err(Difference::End) => text(b"the end differs\n"),
        Err(Difference::Count) => text(b"the count of the summary differs\n"),
        Err(Difference::SummaryEnd) => text(b"the end of the summary differs\n"),
        Err(Difference::Refused) => text(b"the record is refused\n"),
    }
}

// What journal the list is.
pub fn journal(count: usize, n: usize, checksum: usize)
    ensures { result ≡ tt }
{
    line(count, b" records\n");
    line(n, b" bytes\n");
    line(checksum, b" is their checksum\n");
}

// How many cuts there are, and how their walks ended.
pub fn cuts(count: usize, whole: usize, cut: usize)
    ensures { result ≡ tt }
{
    line(count, b" cuts\n");
    line(whole, b" ended whole\n");
    line(cut, b" ended cut\n");
}

// What their walks told before the append, in all.
pub fn before(listed: usize, behind: usize)
    ensures { result ≡ tt }
{
    line(listed, b" records listed\n");
    line(behind, b" bytes behind\n");
}

// How many records were appended, and what the walks told after that, in all.
pub fn after(appended: usize, listed: usize, bytes: usize)
    ensures { result ≡ tt }
{
    line(appended, b" records appended\n");
    line(listed, b" records listed after the append\n");
    line(bytes, b" bytes in all after the append\n");
}

// That nothing differs; or what does where so many bytes are kept, and whether it does so after the append.
pub fn ended(kept: usize, again: bool, x: Result<(), Difference>)
    ensures { result ≡ tt }
{
    if x.is_ok() {
        return text(b"all as written\n");
    }
    count(kept);
    either(again, b" bytes kept, and appended to: ", b" bytes kept: ");
    compared(x);
}

// What the comparison says where one thing is wrong: of the walk of a cut, or of the walk after the append.
pub fn wrong(name: &[u8], again: bool, more: bool, x: Result<(), Difference>)
    ensures { result ≡ tt }
{
    text(b"wrong ");
    text(name);
    if again {
        text(b" after the append");
    }
    either(more, b", one more: ", b", one less: ");
    compared(x);
}
