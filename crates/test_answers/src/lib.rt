// Says what the library's calls answer, on standard output: a trait that each type of answer has. A refusal is said by its number and values, of
// refusal 1 the place behind the other two.
// A record is said by five numbers: its place, its type byte, its value's start and length, and the place behind it. An end is said as whole
// and its place, or as cut, its place and the count of bytes behind; a summary by the number of records and the end.
// No contract states what is written: a public function here answers nothing and changes nothing that is lent.
#![tactic(auto)]

ghost use Rattle.std.specs.Prelude.{◌≡◌};

use action::FilestoreActionCode;
use dump_io::room;
use entity_id::EntityIdTlv;
use filestore_request::FilestoreRequestTlv;
use filestore_response::FilestoreResponseTlv;
use lv::Lv;
use refusal::{Refusal, Values};
use test_output::{bad, bytes, count, numbered, same, text};
use tlv::{Tlv, TlvType, TlvTypeField};
use walk::{End, Record, Step, Summary};

// What can be said as an answer.
pub trait Say: Sized {
    fn say(self)
        ensures { result ≡ tt };
}

impl Say for Refusal {
    fn say(self) {
        numbered(b"refused ", self.number() as usize);
        match self.values() {
            Values::None => {}
            Values::One(x) => {
                numbered(b" (", x);
                text(b")");
            }
            Values::Two(x, y) => {
                numbered(b" (", x);
                numbered(b", ", y);
                text(b")");
            }
            Values::Three(x, y, place) => {
                numbered(b" (", x);
                numbered(b", ", y);
                numbered(b") at ", place);
            }
        }
    }
}

// What a call gives, or its refusal.
impl<T: Say> Say for Result<T, Refusal> {
    fn say(self) {
        match self {
            Ok(x) => x.say(),
            Err(r) => r.say(),
        }
    }
}

// A test that refuses nothing.
impl Say for () {
    fn say(self) {
        text(b"fine");
    }
}

// A length.
impl Say for usize {
    fn say(self) {
        numbered(b"length ", self);
    }
}

// Whether two values are the same.
impl Say for bool {
    fn say(self) {
        same(self);
    }
}

impl Say for u64 {
    fn say(self) {
        numbered(b"number ", self as usize);
    }
}

impl Say for Lv {
    fn say(self) {
        numbered(b"span ", self.start);
        numbered(b" ", self.len);
    }
}

impl Say for TlvType {
    fn say(self) {
        numbered(b"s", u8::from(self) as usize);
    }
}

impl Say for TlvTypeField {
    fn say(self) {
        match self {
            TlvTypeField::Standard(t) => t.say(),
            TlvTypeField::Custom(n) => numbered(b"c", n as usize),
        }
    }
}

impl Say for Option<TlvType> {
    fn say(self) {
        match self {
            Some(t) => t.say(),
            None => text(b"absent"),
        }
    }
}

impl Say for Tlv {
    fn say(self) {
        self.tlv_type_field.say();
        text(b" ");
        self.lv.say();
    }
}

impl Say for FilestoreActionCode {
    fn say(self) {
        numbered(b"action ", u8::from(self) as usize);
    }
}

impl Say for EntityIdTlv {
    fn say(self) {
        numbered(b"width ", self.entity_id.width);
        numbered(b" number ", self.entity_id.value as usize);
    }
}

// A second name.
impl Say for Option<Lv> {
    fn say(self) {
        match self {
            Some(l) => {
                numbered(b"second ", l.start);
                numbered(b" ", l.len);
            }
            None => text(b"second -"),
        }
    }
}

// The names of a request or a response, behind a space.
fn names(first_name: Lv, second_name: Option<Lv>) {
    text(b" ");
    first_name.say();
    text(b" ");
    second_name.say();
}

impl Say for FilestoreRequestTlv {
    fn say(self) {
        numbered(b"request ", u8::from(self.action_code) as usize);
        names(self.first_name, self.second_name);
    }
}

impl Say for FilestoreResponseTlv {
    fn say(self) {
        numbered(b"response ", u8::from(self.action_code) as usize);
        numbered(b" status ", self.status_code as usize);
        names(self.first_name, self.second_name);
        numbered(b" message ", self.filestore_message.start);
        numbered(b" ", self.filestore_message.len);
    }
}

// A record that a walk lists, and the place behind it.
pub fn record(r: Record, next: usize)
    ensures { result ≡ tt }
{
    count(r.place);
    numbered(b" ", r.tlv_type as usize);
    numbered(b" ", r.value.start);
    numbered(b" ", r.value.len);
    numbered(b" ", next);
}

impl Say for End {
    fn say(self) {
        match self {
            End::Whole(place) => numbered(b"whole ", place),
            End::Cut { place, behind } => {
                numbered(b"cut ", place);
                numbered(b" ", behind);
            }
        }
    }
}

impl Say for Step {
    fn say(self) {
        match self {
            Step::Record { record: r, next } => {
                text(b"record ");
                record(r, next);
            }
            Step::End(e) => e.say(),
        }
    }
}

impl Say for Summary {
    fn say(self) {
        count(self.count);
        text(b" ");
        self.end.say();
    }
}

// What a writer answers, and all of its buffer as it is afterwards. Not by `Say`: a count of written bytes is said otherwise than a length, and both are `usize`.
pub fn written(x: Result<usize, Refusal>, buf: &[u8])
    ensures { result ≡ tt }
{
    match x {
        Ok(n) => numbered(b"wrote ", n),
        Err(r) => r.say(),
    }
    buffer(buf);
}

// What a writer of a TLV answers, and all of its buffer as it is afterwards.
pub fn tlv_written(x: Result<Tlv, Refusal>, buf: &[u8])
    ensures { result ≡ tt }
{
    x.say();
    buffer(buf);
}

fn buffer(buf: &[u8]) {
    text(b" buf ");
    bytes(buf);
}

// A call that writes to a buffer, and says what it answers.
pub trait Writes: Sized {
    fn write(&self, buf: &mut [u8])
        ensures { result ≡ tt };
}

// Lends a copy of a buffer to a call that writes, so that nothing lent is changed.
pub fn on_copy<W: Writes>(buf: &[u8], call: &W)
    ensures { result ≡ tt }
{
    let n = buf.len();
    let mut copy = room::<66000>();
    if copy.len() < n {
        return bad();
    }
    copy[..n].copy_from_slice(buf);
    call.write(&mut copy[..n]);
}
