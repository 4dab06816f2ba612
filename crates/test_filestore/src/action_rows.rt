// The calls of action, and those of a second name.
use crate::{values, writers};
use action::FilestoreActionCode;
use filestore_base::{span_test_if, value_if};
use test_answers::Say;
use test_text::Call;

pub(crate) fn say(call: &Call) {
    if call.is(b"action.from_code O") {
        return FilestoreActionCode::try_from((call.w[8] % 256) as u8).say();
    }
    if call.is(b"action.to_code A") {
        return test_output::count(u8::from(values::action(call.w[8])) as usize);
    }
    if call.is(b"action.has_second A") {
        return test_output::truth(action::fs_request_has_second_filename(values::action(
            call.w[8],
        )));
    }
    if call.is(b"second.value MX") {
        return test_output::bytes(value_if(values::second(call.w), call.a));
    }
    if call.is(b"second.span_test MX") {
        return span_test_if(values::second(call.w), call.a).say();
    }
    writers::say(call);
}
