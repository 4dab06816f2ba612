// The library's answers as structs for C.
ghost use Rattle.std.specs.Prelude.{◌≡◌};
ghost use Rattle.refusal.specs.Told.{number_of, values_of, told};
ghost use Rattle.lv.specs.Rules.{span};
ghost use Rattle.entity_id.specs.Told.{told_entity};
ghost use Rattle.walk.specs.Told.{told_step, told_summary};
ghost use Rattle.kind.specs.Told.{told_kind};
ghost use Rattle.cabi.specs.Boundary.{numbered, refusal, or_else, span_of, has_second, second_span, request_of, response_of, step_by, written_answer, lv_answer, tlv_answer, entity_answer, request_answer, response_answer, step_answer, next_answer, summary_answer, kind_answer};

use crate::{
    EntityAnswer, KindAnswer, LvAnswer, NextAnswer, Numbered, Request, RequestAnswer, Response,
    ResponseAnswer, Span, StepAnswer, SummaryAnswer, TlvAnswer, WrittenAnswer,
};
use action::FilestoreActionCode;
use entity_id::{EntityIdTlv, UnsignedByteField};
use filestore_request::FilestoreRequestTlv;
use filestore_response::FilestoreResponseTlv;
use kind::Kind;
use lv::Lv;
use refusal::{Refusal, Values};
use tlv::{Tlv, TlvTypeField};
use walk::{End, Record, Step, Summary};

impl From<Refusal> for Numbered {
    ghost from_gives = { λ r n. n ≡ numbered (number_of r) (values_of r) };

    fn from(r: Refusal) -> Numbered {
        let (first, second, third) = match r.values() {
            Values::None => (0, 0, 0),
            Values::One(first) => (first, 0, 0),
            Values::Two(first, second) => (first, second, 0),
            Values::Three(first, second, third) => (first, second, third),
        };
        Numbered {
            number: r.number() as usize,
            first,
            second,
            third,
        }
    }
}

impl From<Lv> for Span {
    ghost from_gives = { λ l s. s ≡ span_of l };

    fn from(l: Lv) -> Span {
        Span {
            start: l.start,
            len: l.len,
        }
    }
}

// A call's refusal, number 0 where there is none, and what the call gives, or `zero` where it refuses.
fn split<A: Copy>(a: Result<A, Refusal>, zero: A) -> (Numbered, A)
    ensures refusal { result.0 ≡ refusal (told a) }
    ensures given { result.1 ≡ or_else zero (told a) }
{
    match a {
        Ok(given) => (Numbered::default(), given),
        Err(r) => (r.into(), zero),
    }
}

impl From<Result<usize, Refusal>> for WrittenAnswer {
    ghost from_gives = { λ a x. x ≡ written_answer (told a) };

    fn from(a: Result<usize, Refusal>) -> WrittenAnswer {
        let (refusal, bytes) = split(a, 0);
        WrittenAnswer { refusal, bytes }
    }
}

impl From<Result<Lv, Refusal>> for LvAnswer {
    ghost from_gives = { λ a x. x ≡ lv_answer (told a) };

    fn from(a: Result<Lv, Refusal>) -> LvAnswer {
        let (refusal, l) = split(a, Lv::new_empty());
        LvAnswer {
            refusal,
            value: l.into(),
        }
    }
}

impl From<Result<Tlv, Refusal>> for TlvAnswer {
    ghost from_gives = { λ a x. x ≡ tlv_answer (told a) };

    fn from(a: Result<Tlv, Refusal>) -> TlvAnswer {
        let zero = Tlv {
            tlv_type_field: TlvTypeField::Custom(0),
            lv: Lv::new_empty(),
        };
        let (refusal, t) = split(a, zero);
        TlvAnswer {
            refusal,
            tlv_type: t.tlv_type_field.into(),
            value: t.lv.into(),
        }
    }
}

impl From<Result<EntityIdTlv, Refusal>> for EntityAnswer {
    ghost from_gives = { λ a x. x ≡ entity_answer (told_entity a) };

    fn from(a: Result<EntityIdTlv, Refusal>) -> EntityAnswer {
        let zero = EntityIdTlv {
            entity_id: UnsignedByteField { width: 0, value: 0 },
        };
        let (refusal, e) = split(a, zero);
        EntityAnswer {
            refusal,
            width: e.entity_id.width,
            value: e.entity_id.value,
        }
    }
}

// A second name: 1 where it is there, and its span.
fn second(name: Option<Lv>) -> (u8, Span)
    ensures there { result.0 ≡ has_second name }
    ensures span { result.1 ≡ second_span name }
{
    match name {
        Some(l) => (1, l.into()),
        None => (0, Lv::new_empty().into()),
    }
}

impl From<FilestoreRequestTlv> for Request {
    ghost from_gives = { λ q x. x ≡ request_of q };

    fn from(q: FilestoreRequestTlv) -> Request {
        let (has_second, second_name) = second(q.second_name);
        Request {
            action: q.action_code.into(),
            has_second,
            first_name: q.first_name.into(),
            second_name,
        }
    }
}

impl From<FilestoreResponseTlv> for Response {
    ghost from_gives = { λ q x. x ≡ response_of q };

    fn from(q: FilestoreResponseTlv) -> Response {
        let (has_second, second_name) = second(q.second_name);
        Response {
            action: q.action_code.into(),
            status: q.status_code,
            has_second,
            first_name: q.first_name.into(),
            second_name,
            filestore_message: q.filestore_message.into(),
        }
    }
}

impl From<Result<FilestoreRequestTlv, Refusal>> for RequestAnswer {
    ghost from_gives = { λ a x. x ≡ request_answer (told a) };

    fn from(a: Result<FilestoreRequestTlv, Refusal>) -> RequestAnswer {
        let zero = FilestoreRequestTlv {
            action_code: FilestoreActionCode::CreateFile,
            first_name: Lv::new_empty(),
            second_name: None,
        };
        let (refusal, q) = split(a, zero);
        RequestAnswer {
            refusal,
            request: q.into(),
        }
    }
}

impl From<Result<FilestoreResponseTlv, Refusal>> for ResponseAnswer {
    ghost from_gives = { λ a x. x ≡ response_answer (told a) };

    fn from(a: Result<FilestoreResponseTlv, Refusal>) -> ResponseAnswer {
        let zero = FilestoreResponseTlv {
            action_code: FilestoreActionCode::CreateFile,
            status_code: 0,
            first_name: Lv::new_empty(),
            second_name: None,
            filestore_message: Lv::new_empty(),
        };
        let (refusal, q) = split(a, zero);
        ResponseAnswer {
            refusal,
            response: q.into(),
        }
    }
}

// A step that finds no record.
fn at(refusal: Numbered, what: u8, place: usize, behind: usize) -> StepAnswer
    ensures { result ≡ step_by refusal what 0 (span place behind) place }
{
    StepAnswer {
        refusal,
        what,
        tlv_type: 0,
        value: Span {
            start: place,
            len: behind,
        },
        next: place,
    }
}

impl From<Result<Step, Refusal>> for StepAnswer {
    ghost from_gives = { λ a x. x ≡ step_answer (told_step a) };

    fn from(a: Result<Step, Refusal>) -> StepAnswer {
        let record = Record {
            place: 0,
            tlv_type: 0,
            value: Lv::new_empty(),
        };
        let (refusal, step) = split(a, Step::Record { record, next: 0 });
        match step {
            Step::Record { record, next } => StepAnswer {
                refusal,
                what: 0,
                tlv_type: record.tlv_type,
                value: record.value.into(),
                next,
            },
            Step::End(End::Whole(place)) => at(refusal, 1, place, 0),
            Step::End(End::Cut { place, behind }) => at(refusal, 2, place, behind),
        }
    }
}

// The same in two registers: the number alone of a refusal.
impl From<Result<Step, Refusal>> for NextAnswer {
    ghost from_gives = { λ a x. x ≡ next_answer (told_step a) };

    fn from(a: Result<Step, Refusal>) -> NextAnswer {
        let (next, tlv_type, what, refusal) = match a {
            Ok(Step::Record { record, next }) => (next, record.tlv_type, 0, 0),
            Ok(Step::End(End::Whole(place))) => (place, 0, 1, 0),
            Ok(Step::End(End::Cut { place, behind: _ })) => (place, 0, 2, 0),
            Err(r) => (0, 0, 3, r.number()),
        };
        NextAnswer {
            next,
            tlv_type,
            what,
            refusal,
        }
    }
}

impl From<Result<Summary, Refusal>> for SummaryAnswer {
    ghost from_gives = { λ a x. x ≡ summary_answer (told_summary a) };

    fn from(a: Result<Summary, Refusal>) -> SummaryAnswer {
        let zero = Summary {
            count: 0,
            end: End::Whole(0),
        };
        let (refusal, summary) = split(a, zero);
        let (place, behind) = match summary.end {
            End::Whole(place) => (place, 0),
            End::Cut { place, behind } => (place, behind),
        };
        SummaryAnswer {
            refusal,
            count: summary.count,
            place,
            behind,
        }
    }
}

impl From<Result<Kind, Refusal>> for KindAnswer {
    ghost from_gives = { λ a x. x ≡ kind_answer (told_kind a) };

    fn from(a: Result<Kind, Refusal>) -> KindAnswer {
        let (refusal, kind) = split(a, Kind::Request);
        // the numbers are those of cabi/balunduwa.h, whatever the order of the enum
        let kind = match kind {
            Kind::Request => 0,
            Kind::Response => 1,
            Kind::Entity => 2,
            Kind::Other => 3,
        };
        KindAnswer { refusal, kind }
    }
}
