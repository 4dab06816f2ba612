// Makes the calls of splice, number, lv, tlv and entity_id that a case asks for, and says what they answer. Nothing lent is changed: a writer writes to a copy.
//
// The calls stand in tables. A row is a call's name, with a letter for each word that it takes, and beside it the call itself; `say` says its answer. To add a
// call, add its row; `Word` in the program test_replay has the letters.
// A row stays a test of the key: names that stand for several keys are no patterns of a match.
#![tactic(auto)]

mod entity_rows;
mod ground_rows;
mod lv_rows;
mod tlv_rows;
mod values;
mod writers;

ghost use Rattle.std.specs.Prelude.{◌≡◌};

use test_text::Call;

// What has no row is no case.
pub fn say(call: &Call)
    ensures { result ≡ tt }
{
    if call.begins(b"lv.") {
        return lv_rows::say(call);
    }
    if call.begins(b"t") {
        return tlv_rows::say(call);
    }
    if call.begins(b"entity.") {
        return entity_rows::say(call);
    }
    ground_rows::say(call);
}
