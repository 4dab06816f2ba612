// The calls of tlv.
use crate::{values, writers};
use test_answers::Say;
use test_output::truth;
use test_text::Call;
use tlv::{GenericTlv, Tlv, TlvTypeField};

pub(crate) fn say(call: &Call) {
    if call.is(b"type.to_byte F") {
        return test_output::count(u8::from(values::field(call.w[8])) as usize);
    }
    if call.is(b"type.from_byte O") {
        return TlvTypeField::from((call.w[8] % 256) as u8).say();
    }
    if call.is(b"tlv.new TNN") {
        return Tlv::new(values::tlv_type(call.w[6]), call.w[7], call.w[8]).say();
    }
    if call.is(b"tlv.new_with_custom_type ONN") {
        return Tlv::new_with_custom_type((call.w[6] % 256) as u8, call.w[7], call.w[8]).say();
    }
    if call.is(b"tlv.new_empty T") {
        return Tlv::new_empty(values::tlv_type(call.w[8])).say();
    }
    if call.is(b"tlv.from_bytes X") {
        return Tlv::from_bytes(call.a).say();
    }
    if call.is(b"tlv.len_of XT") {
        return Tlv::len_of(call.a, values::tlv_type(call.w[8])).say();
    }
    told(call);
}

fn told(call: &Call) {
    let t = values::tlv(call.w);
    if call.is(b"tlv.len_written FNN") {
        return t.len_written().say();
    }
    if call.is(b"tlv.len_full FNN") {
        return t.len_full().say();
    }
    if call.is(b"tlv.len_value FNN") {
        return test_output::count(t.len_value());
    }
    if call.is(b"tlv.is_empty FNN") {
        return truth(t.is_empty());
    }
    if call.is(b"tlv.tlv_type_field FNN") {
        return t.tlv_type_field().say();
    }
    if call.is(b"tlv.tlv_type FNN") {
        return t.tlv_type().say();
    }
    if call.is(b"tlv.is_standard_tlv FNN") {
        return truth(t.is_standard_tlv());
    }
    lent(call);
}

fn lent(call: &Call) {
    if call.is(b"tlv.value FNNX") {
        return test_output::bytes(values::tlv(call.w).value(call.a));
    }
    if call.is(b"tlv.span_test FNNX") {
        return values::tlv(call.w).span_test(call.a).say();
    }
    if call.is(b"tlv.same FNNXFNNX") {
        return values::tlv(call.left)
            .same(call.a, values::tlv(call.w), call.b)
            .say();
    }
    writers::say(call);
}
