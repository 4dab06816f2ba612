// The calls of filestore_request.
use crate::{values, writers};
use filestore_base::FilestoreTlv;
use filestore_request::FilestoreRequestTlv;
use refusal::Refusal;
use test_answers::Say;
use test_text::Call;
use tlv::GenericTlv;

pub(crate) fn say(call: &Call) {
    let name = values::lv(call.w);
    if call.is(b"request.new_create_file NN") {
        return FilestoreRequestTlv::new_create_file(name).say();
    }
    if call.is(b"request.new_delete_file NN") {
        return FilestoreRequestTlv::new_delete_file(name).say();
    }
    if call.is(b"request.new_rename_file NNNN") {
        return FilestoreRequestTlv::new_rename_file(values::before(call.w), name).say();
    }
    if call.is(b"request.new_append_file NNNN") {
        return FilestoreRequestTlv::new_append_file(values::before(call.w), name).say();
    }
    if call.is(b"request.new_replace_file NNNN") {
        return FilestoreRequestTlv::new_replace_file(values::before(call.w), name).say();
    }
    if call.is(b"request.new_create_directory NN") {
        return FilestoreRequestTlv::new_create_directory(name).say();
    }
    if call.is(b"request.new_remove_directory NN") {
        return FilestoreRequestTlv::new_remove_directory(name).say();
    }
    if call.is(b"request.new_deny_file NN") {
        return FilestoreRequestTlv::new_deny_file(name).say();
    }
    if call.is(b"request.new_deny_directory NN") {
        return FilestoreRequestTlv::new_deny_directory(name).say();
    }
    told(call);
}

fn built(q: FilestoreRequestTlv) -> Result<FilestoreRequestTlv, Refusal> {
    FilestoreRequestTlv::new(q.action_code, q.first_name, q.second_name)
}

fn told(call: &Call) {
    let q = values::request(call.w);
    if call.is(b"request.new ANNM") {
        return built(q).say();
    }
    if call.is(b"request.action_code ANNM") {
        return q.action_code().say();
    }
    if call.is(b"request.first_name ANNM") {
        return q.first_name().say();
    }
    if call.is(b"request.second_name ANNM") {
        return q.second_name().say();
    }
    if call.is(b"request.len_value ANNM") {
        return q.len_value().say();
    }
    if call.is(b"request.len_full ANNM") {
        return q.len_full().say();
    }
    if call.is(b"request.len_written ANNM") {
        return q.len_written().say();
    }
    read(call);
}

fn read(call: &Call) {
    if call.is(b"request.tlv_type_field ANNM") {
        return values::request(call.w).tlv_type_field().say();
    }
    if call.is(b"request.tlv_type ANNM") {
        return values::request(call.w).tlv_type().say();
    }
    if call.is(b"request.is_standard_tlv ANNM") {
        return test_output::truth(values::request(call.w).is_standard_tlv());
    }
    if call.is(b"request.from_bytes X") {
        return FilestoreRequestTlv::from_bytes(call.a).say();
    }
    if call.is(b"request.from_bytes_strict X") {
        return FilestoreRequestTlv::from_bytes_strict(call.a).say();
    }
    if call.is(b"request.same ANNMXANNMX") {
        return values::request(call.left)
            .same(call.a, values::request(call.w), call.b)
            .say();
    }
    writers::say(call);
}
