// The library's values, made from the words of a case: each from the last words, as many as it has.
use action::FilestoreActionCode;
use filestore_request::FilestoreRequestTlv;
use filestore_response::FilestoreResponseTlv;
use lv::Lv;
use test_text::Words;

// An action from its number.
pub(crate) fn action(x: usize) -> FilestoreActionCode {
    FilestoreActionCode::try_from((x % 256) as u8).unwrap_or(FilestoreActionCode::DenyDirectory)
}

// A second name from its three words.
fn second_of(there: usize, start: usize, len: usize) -> Option<Lv> {
    if there == 1 {
        Some(Lv { start, len })
    } else {
        None
    }
}

// The span of the last two words, and that of the two before them.
pub(crate) fn lv(w: Words) -> Lv {
    let [.., start, len] = w;
    Lv { start, len }
}

pub(crate) fn before(w: Words) -> Lv {
    let [.., start, len, _, _] = w;
    Lv { start, len }
}

pub(crate) fn second(w: Words) -> Option<Lv> {
    let [.., there, start, len] = w;
    second_of(there, start, len)
}

pub(crate) fn request(w: Words) -> FilestoreRequestTlv {
    let [.., code, start, len, _, _, _] = w;
    FilestoreRequestTlv {
        action_code: action(code),
        first_name: Lv { start, len },
        second_name: second(w),
    }
}

pub(crate) fn response(w: Words) -> FilestoreResponseTlv {
    let [
        code,
        status,
        start,
        len,
        there,
        second_start,
        second_len,
        _,
        _,
    ] = w;
    FilestoreResponseTlv {
        action_code: action(code),
        status_code: (status % 256) as u8,
        first_name: Lv { start, len },
        second_name: second_of(there, second_start, second_len),
        filestore_message: lv(w),
    }
}
