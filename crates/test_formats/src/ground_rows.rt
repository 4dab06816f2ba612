// The calls of splice and number.
use crate::writers;
use test_answers::Say;
use test_text::Call;

pub(crate) fn say(call: &Call) {
    if call.is(b"splice.same XX") {
        return splice::same(call.a, call.b).say();
    }
    if call.is(b"number.read X") {
        return number::read(call.a).say();
    }
    if call.is(b"number.test NN") {
        return number::test(call.w[7] as u64, call.w[8]).say();
    }
    writers::say(call);
}
