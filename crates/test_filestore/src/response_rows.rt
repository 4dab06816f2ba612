// The calls of filestore_response.
use crate::{values, writers};
use filestore_base::FilestoreTlv;
use filestore_response::FilestoreResponseTlv;
use lv::Lv;
use refusal::Refusal;
use test_answers::Say;
use test_text::{Call, Words};
use tlv::GenericTlv;

fn built(q: FilestoreResponseTlv) -> Result<FilestoreResponseTlv, Refusal> {
    FilestoreResponseTlv::new(
        q.action_code,
        q.status_code,
        q.first_name,
        q.second_name,
        q.filestore_message,
    )
}

// Its words are those of a response without the last two, which are the message's.
fn without_message(w: Words) -> Result<FilestoreResponseTlv, Refusal> {
    let [.., action, status, start, len, _, _, _] = w;
    FilestoreResponseTlv::new_no_filestore_message(
        values::action(action),
        (status % 256) as u8,
        Lv { start, len },
        values::second(w),
    )
}

pub(crate) fn say(call: &Call) {
    if call.is(b"response.new_no_filestore_message AONNM") {
        return without_message(call.w).say();
    }
    if call.is(b"response.new AONNMNN") {
        return built(values::response(call.w)).say();
    }
    if call.is(b"response.has_second_filename A") {
        let code = values::action(call.w[8]);
        return test_output::truth(FilestoreResponseTlv::has_second_filename(code));
    }
    if call.is(b"response.from_bytes X") {
        return FilestoreResponseTlv::from_bytes(call.a).say();
    }
    if call.is(b"response.from_bytes_strict X") {
        return FilestoreResponseTlv::from_bytes_strict(call.a).say();
    }
    if call.is(b"response.same AONNMNNXAONNMNNX") {
        return values::response(call.left)
            .same(call.a, values::response(call.w), call.b)
            .say();
    }
    told(call);
}

fn told(call: &Call) {
    let q = values::response(call.w);
    if call.is(b"response.action_code AONNMNN") {
        return q.action_code().say();
    }
    if call.is(b"response.status_code AONNMNN") {
        return test_output::count(q.status_code() as usize);
    }
    if call.is(b"response.first_name AONNMNN") {
        return q.first_name().say();
    }
    if call.is(b"response.second_name AONNMNN") {
        return q.second_name().say();
    }
    if call.is(b"response.filestore_message AONNMNN") {
        return q.filestore_message().say();
    }
    as_tlv(call);
}

fn as_tlv(call: &Call) {
    let q = values::response(call.w);
    if call.is(b"response.len_value AONNMNN") {
        return q.len_value().say();
    }
    if call.is(b"response.len_full AONNMNN") {
        return q.len_full().say();
    }
    if call.is(b"response.len_written AONNMNN") {
        return q.len_written().say();
    }
    if call.is(b"response.tlv_type_field AONNMNN") {
        return q.tlv_type_field().say();
    }
    if call.is(b"response.tlv_type AONNMNN") {
        return q.tlv_type().say();
    }
    if call.is(b"response.is_standard_tlv AONNMNN") {
        return test_output::truth(q.is_standard_tlv());
    }
    writers::say(call);
}
