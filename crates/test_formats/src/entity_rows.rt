// The calls of entity_id.
use crate::{values, writers};
use entity_id::EntityIdTlv;
use test_answers::Say;
use test_text::Call;
use tlv::GenericTlv;

pub(crate) fn say(call: &Call) {
    let x = values::entity(call.w);
    if call.is(b"entity.new NN") {
        return EntityIdTlv::new(x.entity_id).say();
    }
    if call.is(b"entity.entity_id NN") {
        return EntityIdTlv {
            entity_id: x.entity_id(),
        }
        .say();
    }
    if call.is(b"entity.len_value NN") {
        return test_output::count(x.len_value());
    }
    if call.is(b"entity.len_full NN") {
        return x.len_full().say();
    }
    if call.is(b"entity.len_written NN") {
        return x.len_written().say();
    }
    if call.is(b"entity.tlv_type_field NN") {
        return x.tlv_type_field().say();
    }
    if call.is(b"entity.tlv_type NN") {
        return x.tlv_type().say();
    }
    if call.is(b"entity.is_standard_tlv NN") {
        return test_output::truth(x.is_standard_tlv());
    }
    read(call);
}

fn read(call: &Call) {
    if call.is(b"entity.from_bytes X") {
        return EntityIdTlv::from_bytes(call.a).say();
    }
    if call.is(b"entity.from_tlv FNNX") {
        return EntityIdTlv::from_tlv(values::tlv(call.w), call.a).say();
    }
    if call.is(b"entity.same NNNN") {
        return values::entity_before(call.w)
            .same(values::entity(call.w))
            .say();
    }
    writers::say(call);
}
