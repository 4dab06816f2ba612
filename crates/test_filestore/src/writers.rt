// The calls that write, each on a copy of the buffer b, which is said behind the answer.
use crate::values;
use filestore_base::FilestoreTlv;
use test_answers::{Writes, on_copy, written};
use test_text::Call;

// A call of this table.
#[derive(Clone, Copy)]
struct Row<'a>(&'a Call<'a>);

impl Writes for Row<'_> {
    fn write(&self, b: &mut [u8]) {
        let call = self.0;
        if call.is(b"request.write_to_slice ANNMXX") {
            return written(values::request(call.w).write_to_slice(call.a, b), b);
        }
        if call.is(b"response.write_to_slice AONNMNNXX") {
            return written(values::response(call.w).write_to_slice(call.a, b), b);
        }
        test_output::bad();
    }
}

pub(crate) fn say(call: &Call) {
    on_copy(call.b, &Row(call));
}
