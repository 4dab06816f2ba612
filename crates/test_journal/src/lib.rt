// Makes the calls of walk, walker, kind and listing that a case asks for, and says what they answer, on standard output. The tables are as in test_formats.
#![tactic(auto)]

mod sum;

ghost use Rattle.std.specs.Prelude.{◌≡◌, ◌<◌, IfSome};

use kind::{Kind, kind_at};
use lv::Lv;
use refusal::Refusal;
use test_answers::{Say, record};
use test_output::{count, text};
use test_text::{Call, Words};
use walk::{Record, Step, step_at, summary_of};

// No `Say`: that trait is of test_answers, which stands beside kind and not above it.
fn kind(x: Result<Kind, Refusal>) {
    match x {
        Ok(Kind::Request) => text(b"request"),
        Ok(Kind::Response) => text(b"response"),
        Ok(Kind::Entity) => text(b"entity"),
        Ok(Kind::Other) => text(b"other"),
        Err(r) => r.say(),
    }
}

// Says what stands at a place: a record with its kind, or how the walk ends there. Answers the place behind a record.
fn listed(a: &[u8], place: usize) -> Option<usize>
    ensures { IfSome result (λ next. place < next) }
{
    match step_at(a, place) {
        Ok(Step::Record { record: r, next }) => {
            record(r, next);
            text(b" ");
            kind(kind_at(a, place));
            text(b"; ");
            Some(next)
        }
        Ok(Step::End(e)) => {
            e.say();
            None
        }
        Err(r) => {
            r.say();
            None
        }
    }
}

// What steps from 0 on find: a loop by places, as the walk's.
fn listing(a: &[u8]) {
    let mut place: usize = 0;
    while let Some(next) = listed(a, place) {
        place = next;
    }
}

// A line for a prefix: its length, its summary and its listing.
fn prefix(s: &[u8]) {
    test_output::line_end();
    count(s.len());
    text(b": ");
    summary_of(s).say();
    text(b": ");
    listing(s);
}

// The count of bytes, and a line for each prefix.
fn prefixes(a: &[u8]) {
    count(a.len());
    for n in 0..=a.len() {
        prefix(&a[..n]);
    }
}

// A line for a place: the step and the kind there.
fn place(a: &[u8], at: usize) {
    test_output::line_end();
    count(at);
    text(b": ");
    step_at(a, at).say();
    text(b"; ");
    kind(kind_at(a, at));
}

// The count of bytes, and a line for each place up to two past the end.
fn places(a: &[u8]) {
    count(a.len());
    for at in 0..=a.len() + 2 {
        place(a, at);
    }
}

// The record that the last four words stand for: its place, its type byte, its value's start and length.
fn record_of(w: Words) -> Record {
    let [.., place, byte, start, len] = w;
    Record {
        place,
        tlv_type: (byte % 256) as u8,
        value: Lv { start, len },
    }
}

// Makes a call, and says what it answers.
pub fn say(call: &Call)
    ensures { result ≡ tt }
{
    if call.is(b"walk.step_at XN") {
        return step_at(call.a, call.w[8]).say();
    }
    if call.is(b"walk.summary_of X") {
        return summary_of(call.a).say();
    }
    if call.is(b"walk.listing X") {
        return listing(call.a);
    }
    if call.is(b"walk.prefixes X") {
        return prefixes(call.a);
    }
    if call.is(b"walk.places X") {
        return places(call.a);
    }
    if call.is(b"kind.kind_at XN") {
        return kind(kind_at(call.a, call.w[8]));
    }
    more(call);
}

fn more(call: &Call) {
    if call.is(b"record.to_tlv NONN") {
        return record_of(call.w).to_tlv().say();
    }
    if call.is(b"record.value NONNX") {
        return test_output::bytes(record_of(call.w).value(call.a));
    }
    if call.is(b"record.span_test NONNX") {
        return record_of(call.w).span_test(call.a).say();
    }
    if call.is(b"walker.first X") {
        return walker::first(call.a).say();
    }
    if call.is(b"listing.sum X") {
        return sum::say(call.a);
    }
    test_output::bad();
}
