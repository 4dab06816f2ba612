// The calls that write, each on a copy of the buffer b, which is said behind the answer.
use crate::values;
use test_answers::{Writes, on_copy, tlv_written, written};
use test_text::Call;

// A call of this table.
#[derive(Clone, Copy)]
struct Row<'a>(&'a Call<'a>);

impl Writes for Row<'_> {
    fn write(&self, b: &mut [u8]) {
        let call = self.0;
        if call.is(b"lv.write_to_slice NNXX") {
            return written(values::lv(call.left).write_to_slice(call.a, b), b);
        }
        if call.is(b"lv.write_at NNXXN") {
            return written(values::lv(call.left).write_at(call.a, b, call.w[8]), b);
        }
        if call.is(b"tlv.write_to_slice FNNXX") {
            return written(values::tlv(call.w).write_to_slice(call.a, b), b);
        }
        if call.is(b"entity.write_to_slice NNX") {
            return written(values::entity(call.w).write_to_slice(b), b);
        }
        if call.is(b"entity.to_tlv NNX") {
            return tlv_written(values::entity(call.w).to_tlv(b), b);
        }
        if call.is(b"splice.put NXX") {
            return written(splice::put(b, call.w[8], call.a), b);
        }
        if call.is(b"number.write NNXN") {
            return written(number::write(call.w[6] as u64, call.w[7], b, call.w[8]), b);
        }
        test_output::bad();
    }
}

pub(crate) fn say(call: &Call) {
    on_copy(call.b, &Row(call));
}
