// What C hands in, as values of the library.
ghost use Rattle.std.specs.Prelude.{◌≡◌};
ghost use Rattle.refusal.specs.Told.{told};
ghost use Rattle.cabi.specs.Boundary.{span_in, second_in, request_given, response_given};

use crate::{Request, Response, Span};
use action::FilestoreActionCode;
use filestore_request::FilestoreRequestTlv;
use filestore_response::FilestoreResponseTlv;
use lv::Lv;
use refusal::Refusal;

impl From<Span> for Lv {
    ghost from_gives = { λ s l. l ≡ span_in s };

    fn from(s: Span) -> Lv {
        Lv {
            start: s.start,
            len: s.len,
        }
    }
}

fn second(there: u8, s: Span) -> Option<Lv>
    ensures { result ≡ second_in there s }
{
    if there == 0 { None } else { Some(s.into()) }
}

// 7 where there is no such action.
impl TryFrom<Request> for FilestoreRequestTlv {
    type Error = Refusal;

    ghost try_from_gives = { λ q a. told a ≡ request_given q };

    fn try_from(q: Request) -> Result<Self, Refusal> {
        Ok(FilestoreRequestTlv {
            action_code: FilestoreActionCode::try_from(q.action)?,
            first_name: q.first_name.into(),
            second_name: second(q.has_second, q.second_name),
        })
    }
}

// 7 where there is no such action.
impl TryFrom<Response> for FilestoreResponseTlv {
    type Error = Refusal;

    ghost try_from_gives = { λ q a. told a ≡ response_given q };

    fn try_from(q: Response) -> Result<Self, Refusal> {
        Ok(FilestoreResponseTlv {
            action_code: FilestoreActionCode::try_from(q.action)?,
            status_code: q.status,
            first_name: q.first_name.into(),
            second_name: second(q.has_second, q.second_name),
            filestore_message: q.filestore_message.into(),
        })
    }
}
