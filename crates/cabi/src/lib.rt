// The library for C: each function is one call of the library, on numbers and lent bytes, and answers a struct by value. cabi/balunduwa.h declares
// them again for C. An answer begins with a refusal, number 0 where there is none; behind it stands what the call gives, 0 where it refuses.
// `NextAnswer` is otherwise. The plain readers, the writers and the steps return at once where they give a value, bytes or a record: so LLVM keeps that
// way apart from the others and has nothing to move from one to another. One function that returns for all of them is slower: LLVM inlines it, and there
// the ways meet again.
#![tactic(auto)]

mod answers;
mod arguments;

ghost use Rattle.std.specs.Prelude.{◌≡◌, length};
ghost use Rattle.refusal.specs.Told.{told};
ghost use Rattle.splice.specs.Writing.{Wrote};
ghost use Rattle.lv.specs.Rules.{read_lv, write_lv};
ghost use Rattle.tlv.specs.Rules.{tlv_of, read_tlv, write_tlv};
ghost use Rattle.entity_id.specs.Rules.{entity_of, read_entity, write_entity};
ghost use Rattle.filestore_request.specs.Rules.{read_request, strict_request};
ghost use Rattle.filestore_response.specs.Rules.{read_response, strict_response};
ghost use Rattle.walk.specs.Rules.{step_at, summary_of};
ghost use Rattle.kind.specs.Rules.{kind_at};
ghost use Rattle.cabi.specs.Boundary.{lv_answer, tlv_answer, entity_answer, request_answer, response_answer, step_answer, next_answer, summary_answer, kind_answer, Sent};
ghost use Rattle.cabi.specs.Boundary.{span_in, write_request, write_response};

use entity_id::{EntityIdTlv, UnsignedByteField};
use filestore_base::FilestoreTlv;
use filestore_request::FilestoreRequestTlv;
use filestore_response::FilestoreResponseTlv;
use kind::kind_at;
use lv::Lv;
use refusal::Refusal;
use tlv::{Tlv, TlvTypeField};
use walk::{Step, step_at, summary_of};

// The structs are those of C, which has no `Option` and no enum with fields: a number says which case it is.

// A refusal: its number and its values, 0 for each that it does not carry.
#[repr(C)]
#[derive(Clone, Copy, Default)]
pub struct Numbered {
    pub number: usize,
    pub first: usize,
    pub second: usize,
    pub third: usize,
}

#[repr(C)]
#[derive(Clone, Copy)]
pub struct Span {
    pub start: usize,
    pub len: usize,
}

#[repr(C)]
#[derive(Clone, Copy)]
pub struct WrittenAnswer {
    pub refusal: Numbered,
    pub bytes: usize,
}

#[repr(C)]
#[derive(Clone, Copy)]
pub struct LvAnswer {
    pub refusal: Numbered,
    pub value: Span,
}

#[repr(C)]
#[derive(Clone, Copy)]
pub struct TlvAnswer {
    pub refusal: Numbered,
    pub tlv_type: u8,
    pub value: Span,
}

#[repr(C)]
#[derive(Clone, Copy)]
pub struct EntityAnswer {
    pub refusal: Numbered,
    pub width: usize,
    pub value: u64,
}

// The second name is there where has_second is not 0.
#[repr(C)]
#[derive(Clone, Copy)]
pub struct Request {
    pub action: u8,
    pub has_second: u8,
    pub first_name: Span,
    pub second_name: Span,
}

#[repr(C)]
#[derive(Clone, Copy)]
pub struct RequestAnswer {
    pub refusal: Numbered,
    pub request: Request,
}

#[repr(C)]
#[derive(Clone, Copy)]
pub struct Response {
    pub action: u8,
    pub status: u8,
    pub has_second: u8,
    pub first_name: Span,
    pub second_name: Span,
    pub filestore_message: Span,
}

#[repr(C)]
#[derive(Clone, Copy)]
pub struct ResponseAnswer {
    pub refusal: Numbered,
    pub response: Response,
}

// `what` is 0 for a record, 1 for the whole end and 2 for the cut one. For a record, `value` is the span of its value and `next` the place behind it. For
// an end, `value` is the span of the bytes that are left there, none at a whole end, and `next` the place of the end.
#[repr(C)]
#[derive(Clone, Copy)]
pub struct StepAnswer {
    pub refusal: Numbered,
    pub what: u8,
    pub tlv_type: u8,
    pub value: Span,
    pub next: usize,
}

// The same, in two registers. A record's value starts 2 bytes behind its place and ends at `next`; a stump ends with the buffer. `what` is 3 where the
// call refuses: `refusal` is the number, and its value is the buffer's length (14) or the place (15).
#[repr(C)]
#[derive(Clone, Copy)]
pub struct NextAnswer {
    pub next: usize,
    pub tlv_type: u8,
    pub what: u8,
    pub refusal: u8,
}

#[repr(C)]
#[derive(Clone, Copy)]
pub struct SummaryAnswer {
    pub refusal: Numbered,
    pub count: usize,
    pub place: usize,
    pub behind: usize,
}

// `kind` is 0 for a request, 1 for a response, 2 for an entity ID and 3 for any other record.
#[repr(C)]
#[derive(Clone, Copy)]
pub struct KindAnswer {
    pub refusal: Numbered,
    pub kind: u8,
}

#[unsafe(no_mangle)]
pub extern "C" fn balunduwa_lv_read(buf: &[u8]) -> LvAnswer
    ensures { result ≡ lv_answer (read_lv buf.now) }
{
    match Lv::from_bytes(buf) {
        Ok(l) => return Ok(l).into(),
        Err(r) => Err(r).into(),
    }
}

#[unsafe(no_mangle)]
pub extern "C" fn balunduwa_lv_write(value: Span, src: &[u8], buf: &mut [u8]) -> WrittenAnswer
    ensures { Sent (write_lv (span_in value) src.now (length buf.old)) result buf.old buf.new }
{
    match Lv::from(value).write_to_slice(src, buf) {
        Ok(bytes) => return Ok(bytes).into(),
        Err(r) => Err(r).into(),
    }
}

#[unsafe(no_mangle)]
pub extern "C" fn balunduwa_tlv_read(buf: &[u8]) -> TlvAnswer
    ensures { result ≡ tlv_answer (read_tlv buf.now) }
{
    match Tlv::from_bytes(buf) {
        Ok(t) => return Ok(t).into(),
        Err(r) => Err(r).into(),
    }
}

// The type byte is written as it is: a custom label has any number.
#[unsafe(no_mangle)]
pub extern "C" fn balunduwa_tlv_write(
    tlv_type: u8,
    value: Span,
    src: &[u8],
    buf: &mut [u8],
) -> WrittenAnswer
    ensures { Sent (write_tlv (tlv_of (TlvTypeField.Custom tlv_type) (span_in value)) src.now (length buf.old)) result buf.old buf.new }
{
    let tlv = Tlv {
        tlv_type_field: TlvTypeField::Custom(tlv_type),
        lv: value.into(),
    };
    match tlv.write_to_slice(src, buf) {
        Ok(bytes) => return Ok(bytes).into(),
        Err(r) => Err(r).into(),
    }
}

#[unsafe(no_mangle)]
pub extern "C" fn balunduwa_entity_read(buf: &[u8]) -> EntityAnswer
    ensures { result ≡ entity_answer (read_entity buf.now) }
{
    match EntityIdTlv::from_bytes(buf) {
        Ok(e) => return Ok(e).into(),
        Err(r) => Err(r).into(),
    }
}

#[unsafe(no_mangle)]
pub extern "C" fn balunduwa_entity_write(width: usize, value: u64, buf: &mut [u8]) -> WrittenAnswer
    ensures { Sent (write_entity (entity_of width value) (length buf.old)) result buf.old buf.new }
{
    let entity = EntityIdTlv {
        entity_id: UnsignedByteField { width, value },
    };
    match entity.write_to_slice(buf) {
        Ok(bytes) => return Ok(bytes).into(),
        Err(r) => Err(r).into(),
    }
}

// One return for two names and one for one, so that no field that is known to be 0 goes through a register.
#[unsafe(no_mangle)]
pub extern "C" fn balunduwa_request_read(buf: &[u8]) -> RequestAnswer
    ensures { result ≡ request_answer (read_request buf.now) }
{
    match FilestoreRequestTlv::from_bytes(buf) {
        Ok(q) => {
            let Some(l) = q.second_name else {
                return Ok(FilestoreRequestTlv {
                    second_name: None,
                    ..q
                })
                .into();
            };
            return Ok(FilestoreRequestTlv {
                second_name: Some(l),
                ..q
            })
            .into();
        }
        Err(r) => Err(r).into(),
    }
}

#[unsafe(no_mangle)]
pub extern "C" fn balunduwa_request_read_strict(buf: &[u8]) -> RequestAnswer
    ensures { result ≡ request_answer (strict_request buf.now) }
{
    FilestoreRequestTlv::from_bytes_strict(buf).into()
}

// A response's is a line like this: one function for both has a longer contract than the two.
fn write_request(request: Request, src: &[u8], buf: &mut [u8]) -> Result<usize, Refusal>
    ensures { Wrote 0 (write_request request src.now (length buf.old)) (told result) buf.old buf.new }
{
    FilestoreRequestTlv::try_from(request)?.write_to_slice(src, buf)
}

// 7 first, for an action over 8: in the library an action is one of the nine.
#[unsafe(no_mangle)]
pub extern "C" fn balunduwa_request_write(
    request: Request,
    src: &[u8],
    buf: &mut [u8],
) -> WrittenAnswer
    ensures { Sent (write_request request src.now (length buf.old)) result buf.old buf.new }
{
    match write_request(request, src, buf) {
        Ok(bytes) => return Ok(bytes).into(),
        Err(r) => Err(r).into(),
    }
}

#[unsafe(no_mangle)]
pub extern "C" fn balunduwa_response_read(buf: &[u8]) -> ResponseAnswer
    ensures { result ≡ response_answer (read_response buf.now) }
{
    match FilestoreResponseTlv::from_bytes(buf) {
        Ok(q) => return Ok(q).into(),
        Err(r) => Err(r).into(),
    }
}

#[unsafe(no_mangle)]
pub extern "C" fn balunduwa_response_read_strict(buf: &[u8]) -> ResponseAnswer
    ensures { result ≡ response_answer (strict_response buf.now) }
{
    FilestoreResponseTlv::from_bytes_strict(buf).into()
}

fn write_response(response: Response, src: &[u8], buf: &mut [u8]) -> Result<usize, Refusal>
    ensures { Wrote 0 (write_response response src.now (length buf.old)) (told result) buf.old buf.new }
{
    FilestoreResponseTlv::try_from(response)?.write_to_slice(src, buf)
}

// 7 first, as for a request.
#[unsafe(no_mangle)]
pub extern "C" fn balunduwa_response_write(
    response: Response,
    src: &[u8],
    buf: &mut [u8],
) -> WrittenAnswer
    ensures { Sent (write_response response src.now (length buf.old)) result buf.old buf.new }
{
    match write_response(response, src, buf) {
        Ok(bytes) => return Ok(bytes).into(),
        Err(r) => Err(r).into(),
    }
}

#[unsafe(no_mangle)]
pub extern "C" fn balunduwa_walk_step(buf: &[u8], place: usize) -> StepAnswer
    ensures { result ≡ step_answer (step_at buf.now place) }
{
    match step_at(buf, place) {
        Ok(Step::Record { record, next }) => return Ok(Step::Record { record, next }).into(),
        other => other.into(),
    }
}

// The same in two registers.
#[unsafe(no_mangle)]
pub extern "C" fn balunduwa_walk_next(buf: &[u8], place: usize) -> NextAnswer
    ensures { result ≡ next_answer (step_at buf.now place) }
{
    match step_at(buf, place) {
        Ok(Step::Record { record, next }) => {
            return NextAnswer::from(Ok(Step::Record { record, next }));
        }
        other => other.into(),
    }
}

#[unsafe(no_mangle)]
pub extern "C" fn balunduwa_walk_summary(buf: &[u8]) -> SummaryAnswer
    ensures { result ≡ summary_answer (summary_of buf.now) }
{
    summary_of(buf).into()
}

#[unsafe(no_mangle)]
pub extern "C" fn balunduwa_kind_at(buf: &[u8], place: usize) -> KindAnswer
    ensures { result ≡ kind_answer (kind_at buf.now place) }
{
    kind_at(buf, place).into()
}
