// The calls of lv.
use crate::{values, writers};
use lv::Lv;
use test_answers::Say;
use test_output::{count, truth};
use test_text::Call;

pub(crate) fn say(call: &Call) {
    let l = values::lv(call.w);
    if call.is(b"lv.new NN") {
        return Lv::new(call.w[7], call.w[8]).say();
    }
    if call.is(b"lv.new_empty") {
        return Lv::new_empty().say();
    }
    if call.is(b"lv.len_value NN") {
        return count(l.len_value());
    }
    if call.is(b"lv.len_full NN") {
        return l.len_full().say();
    }
    if call.is(b"lv.is_empty NN") {
        return truth(l.is_empty());
    }
    if call.is(b"lv.size_test NN") {
        return l.size_test().say();
    }
    read(call);
}

fn read(call: &Call) {
    let l = values::lv(call.w);
    if call.is(b"lv.value NNX") {
        return test_output::bytes(l.value(call.a));
    }
    if call.is(b"lv.span_test NNX") {
        return l.span_test(call.a).say();
    }
    if call.is(b"lv.write_test NNX") {
        return l.write_test(call.a).say();
    }
    if call.is(b"lv.from_bytes X") {
        return Lv::from_bytes(call.a).say();
    }
    if call.is(b"lv.read_at XNN") {
        return Lv::read_at(call.a, call.w[7], call.w[8]).say();
    }
    if call.is(b"lv.same NNXNNX") {
        return values::lv(call.left).same(call.a, l, call.b).say();
    }
    writers::say(call);
}
