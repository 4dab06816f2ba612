// Makes the calls of action, filestore_request and filestore_response that a case asks for, and says what they answer. Nothing lent is changed: a writer writes to a
// copy. The tables are as in test_formats.
#![tactic(auto)]

mod action_rows;
mod request_rows;
mod response_rows;
mod values;
mod writers;

ghost use Rattle.std.specs.Prelude.{◌≡◌};

use test_text::Call;

pub fn say(call: &Call)
    ensures { result ≡ tt }
{
    if call.begins(b"request.") {
        return request_rows::say(call);
    }
    if call.begins(b"response.") {
        return response_rows::say(call);
    }
    action_rows::say(call);
}
