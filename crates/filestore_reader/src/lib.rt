// Reads a filestore request or response: its names and message as spans of the buffer, and how many bytes are left behind them in its value.
// A port of what the two `from_bytes` of src/cfdp/tlv/mod.rs of spacepackets 0.19.0 share, changed: spans for slices, numbered answers, one
// reader for both, and strict reading beside it.
#![tactic(auto)]

ghost use Rattle.std.specs.Prelude.{◌≡◌, ◌≤◌, length};
ghost use Rattle.refusal.specs.Told.{told};
ghost use Rattle.action.specs.Rules.{code_of, due_of};
ghost use Rattle.filestore_reader.specs.Rules.{read_base, strict_base, low_bits_test, left_test, listed_test, strict_test};
ghost use Rattle.filestore_reader.specs.Inner.{read_if_at, read_second_at, read_value, end_if};

use action::FilestoreActionCode;
use filestore_base::FilestoreTlvBase;
use lv::Lv;
use refusal::Refusal;
use tlv::Tlv;

// What was read, and how many bytes are left behind it in the value.
#[derive(Clone, Copy)]
pub struct Found {
    pub base: FilestoreTlvBase,
    pub left: usize,
}

// ---- reading, from a place on, in the bytes of one TLV, which end where its value does

// Refusal 1, for a byte that is not there. Each layer makes it by itself, with the place that it tells.
fn no_byte(place: usize) -> Refusal
    ensures { result ≡ Refusal.FromSliceTooSmall 0 1 place }
{
    Refusal::FromSliceTooSmall {
        found: 0,
        expected: 1,
        place,
    }
}

// An LV, where one is wanted: a response has a message, and a request has none. Where nothing is left it is refused here, whatever the place: so nothing is
// required of the place.
#[tactic(auto, using(crate::proofs::Laws::read_if_at_not, crate::proofs::Laws::read_if_at_none, crate::proofs::Laws::read_if_at_lv))]
fn lv_if(tlv: &[u8], at: usize, wanted: bool) -> Result<Option<Lv>, Refusal>
    ensures { told result ≡ read_if_at tlv.now at (length tlv.now) wanted }
{
    if !wanted {
        return Ok(None);
    }
    if tlv.len() <= at {
        return Err(no_byte(at));
    }
    Ok(Some(Lv::read_at(tlv, at, tlv.len())?))
}

// The second name, where the action has one. 6 where nothing is left for it.
#[tactic(auto, using(crate::proofs::Laws::read_second_at_not, crate::proofs::Laws::read_second_at_none, crate::proofs::Laws::read_second_at_lv))]
fn second_at(tlv: &[u8], at: usize, action_code: FilestoreActionCode) -> Result<Option<Lv>, Refusal>
    ensures { told result ≡ read_second_at tlv.now at (length tlv.now) (due_of action_code) }
{
    if !action::fs_request_has_second_filename(action_code) {
        return Ok(None);
    }
    let Some(_) = tlv.get(at) else {
        return Err(Refusal::SecondNameMissing);
    };
    lv_if(tlv, at, true)
}

// The place behind what stands at the place at: an LV, or nothing. A `match`, as those of filestore_base are.
fn place_behind(at: usize, l: Option<Lv>) -> usize
    requires { end_if at l ≤ usize.MAX }
    ensures { result ≡ end_if at l }
{
    match l {
        Some(l) => l.start + l.len,
        None => at,
    }
}

// The value, which starts at 2.
#[tactic(auto, using(crate::proofs::Laws::read_value_none, crate::proofs::Laws::read_value_nameless))]
fn value_in(tlv: &[u8], response: bool) -> Result<Found, Refusal>
    requires { 2 ≤ length tlv.now }
    ensures { told result ≡ read_value tlv.now (length tlv.now) response }
{
    let end = tlv.len();
    if end == 2 {
        return Err(no_byte(end));
    }
    let octet = tlv[2];
    let action_code = FilestoreActionCode::try_from(octet / 16)?;
    let first_name = Lv::read_at(tlv, 3, end)?;
    let second_place = first_name.start + first_name.len;
    let second_name = second_at(tlv, second_place, action_code)?;
    let message_place = place_behind(second_place, second_name);
    let message = lv_if(tlv, message_place, response)?;
    let left = end - place_behind(message_place, message);
    let base = FilestoreTlvBase {
        action_code,
        low_bits: octet % 16,
        first_name,
        second_name,
        message,
    };
    Ok(Found { base, left })
}

// ---- strict reading

// A request's low bits are 0, else 11.
#[tactic(auto, using(refusal::proofs::Laws::limit_in, refusal::proofs::Laws::limit_over))]
fn low_bits_test(low_bits: u8) -> Result<(), Refusal>
    ensures { told result ≡ low_bits_test low_bits }
{
    if low_bits != 0 {
        return Err(Refusal::LowBitsNotZero(low_bits));
    }
    Ok(())
}

// No bytes are left of the value, else 12.
#[tactic(auto, using(refusal::proofs::Laws::limit_in, refusal::proofs::Laws::limit_over))]
fn left_test(left: usize) -> Result<(), Refusal>
    ensures { told result ≡ left_test left }
{
    if left != 0 {
        return Err(Refusal::BytesLeft(left));
    }
    Ok(())
}

// A response's status is one of the list, else 13.
#[tactic(auto, using(crate::proofs::Laws::listed_test_first, crate::proofs::Laws::listed_test_last, crate::proofs::Laws::listed_test_off))]
fn listed_test(action_code: FilestoreActionCode, status: u8) -> Result<(), Refusal>
    ensures { told result ≡ listed_test (code_of action_code) status }
{
    match status {
        0 | 1 | 2 | 3 | 15 => Ok(()),
        _ => Err(Refusal::UnknownStatus(status)),
    }
}

impl Found {
    // What strict reading tests: 11 and then 12 for a request, 12 and then 13 for a response. `response` is the one thing in which the two differ.
    fn strict_test(self, response: bool) -> Result<(), Refusal>
        ensures { told result ≡ strict_test response (code_of self.base.action_code) self.base.low_bits self.left }
    {
        if response {
            left_test(self.left)?;
            listed_test(self.base.action_code, self.base.low_bits)
        } else {
            low_bits_test(self.base.low_bits)?;
            left_test(self.left)
        }
    }
}

// Reads the response or the request at the front of buf, and counts the bytes that are left in its value. What stands behind it is ignored. 1, 3 and 1 for
// the TLV; then, for its value, 1 where it is empty, 7, 1 for the first name, 6 or 1 for the second, and 1 for the message. `response` is the one thing in which
// the readers of the two differ.
pub fn from_bytes(buf: &[u8], response: bool) -> Result<Found, Refusal>
    ensures { told result ≡ read_base response buf.now }
{
    let end = Tlv::len_of(buf, filestore_base::tlv_type(response))?;
    value_in(&buf[..end], response)
}

// The same, and then 11 and 12 for a request, 12 and 13 for a response.
#[tactic(auto, using(crate::proofs::Laws::strict_base_is))]
pub fn from_bytes_strict(buf: &[u8], response: bool) -> Result<Found, Refusal>
    ensures { told result ≡ strict_base response buf.now }
{
    let found = from_bytes(buf, response)?;
    found.strict_test(response)?;
    Ok(found)
}
