// What a filestore request and a filestore response have in common: an action, its names, four low bits, and a message or none.
// A port of FilestoreTlvBase of src/cfdp/tlv/mod.rs of spacepackets 0.19.0 and of what both TLVs share, changed: spans for slices, numbered
// answers, and one test for both. The crate filestore_reader reads them; filestore_request and filestore_response have the TLVs.
#![tactic(auto)]

ghost use Rattle.std.specs.Prelude.{◌≡◌, ◌+◌, ◌*◌, ◌≤◌, length, set, None};
ghost use Rattle.bluebook.specs.Layouts.{lv, lv_if};
ghost use Rattle.refusal.specs.Answer.{gives, also};
ghost use Rattle.refusal.specs.Told.{told};
ghost use Rattle.splice.specs.Laid.{laid};
ghost use Rattle.splice.specs.Writing.{Wrote};
ghost use Rattle.lv.specs.Rules.{part_of};
ghost use Rattle.action.specs.Rules.{code_of, due_of};
ghost use Rattle.filestore_base.specs.Meaning.{bytes_if, is_there, part_if, type_in, kind_of, base_of, meaning, parts_of};
ghost use Rattle.filestore_base.specs.Rules.{span_if, size_if, len_if, FitsIf, due_test, status_test, parts_test, len_of, build_test, spans_test, len_value, len_full, write_test, write_base, same_if, same_octet, same_parts, same_base};

use action::FilestoreActionCode;
use lv::Lv;
use refusal::Refusal;
use tlv::TlvType;

// What a request or a response holds. The low bits are a response's status, and a request's spare bits. A message is there in a response.
#[derive(Clone, Copy)]
pub struct FilestoreTlvBase {
    pub action_code: FilestoreActionCode,
    pub low_bits: u8,
    pub first_name: Lv,
    pub second_name: Option<Lv>,
    pub message: Option<Lv>,
}

// ---- a second name, or a message: there, with its span, or absent. Each call is a `match`, and no `map_or`: both cases have a name, and a closure would
// have a contract of its own.

// Its bytes, as a part of the buffer, or the buffer's first 0 bytes where it is absent or its span passes the end.
pub fn value_if(name: Option<Lv>, buf: &[u8]) -> &[u8]
    ensures { result.now ≡ bytes_if (part_if name buf.now) }
{
    match name {
        Some(l) => l.value(buf),
        None => &buf[..0],
    }
}

// 15 where it is there and its span passes the buffer's end.
pub fn span_test_if(name: Option<Lv>, buf: &[u8]) -> Result<(), Refusal>
    ensures { told result ≡ span_if name buf.now }
{
    match name {
        Some(l) => l.span_test(buf),
        None => Ok(()),
    }
}

// 4 where it is there and too long.
fn size_test_if(name: Option<Lv>) -> Result<(), Refusal>
    ensures { told result ≡ size_if name }
{
    match name {
        Some(l) => l.size_test(),
        None => Ok(()),
    }
}

// 6 where a second name is due and absent, 8 where it is there and not due.
fn due_test(action_code: FilestoreActionCode, second_name: Option<Lv>) -> Result<(), Refusal>
    ensures { told result ≡ due_test (due_of action_code) second_name }
{
    if action::fs_request_has_second_filename(action_code) {
        let Some(_) = second_name else {
            return Err(Refusal::SecondNameMissing);
        };
        return Ok(());
    }
    let None = second_name else {
        return Err(Refusal::SecondNameNotDue);
    };
    Ok(())
}

// How many bytes it takes as an LV.
fn len_if(name: Option<Lv>) -> usize
    requires { len_if name ≤ 256 }
    ensures { result ≡ len_if name }
{
    match name {
        Some(l) => l.len + 1,
        None => 0,
    }
}

// Writes it as an LV to buf from the place at on, where it is there. `Lv::write_at` would test again what is required here.
fn put_if(name: Option<Lv>, src: &[u8], buf: &mut [u8], at: usize)
    requires { FitsIf name src.now at (length buf.old) }
    ensures { buf.new ≡ laid at (lv_if (part_if name src.now)) buf.old }
{
    if let Some(l) = name {
        let next = at + 1;
        buf[at] = l.len as u8;
        let value = &src[l.start..l.start + l.len];
        splice::put(&mut buf[next..next + l.len], 0, value).unwrap();
    }
}

// Whether both are absent, or both there with the same bytes. It is no `==`: the bytes lie in two buffers.
fn same_if(name: Option<Lv>, buf: &[u8], other: Option<Lv>, other_buf: &[u8]) -> bool
    ensures { result ≡ same_if (part_if name buf.now) (part_if other other_buf.now) }
{
    match (name, other) {
        (Some(l), Some(m)) => splice::same(l.value(buf), m.value(other_buf)),
        (None, None) => true,
        _ => false,
    }
}

// The type of a response, or of a request: a flag has two values, as there are two types.
pub fn tlv_type(response: bool) -> TlvType
    ensures { result ≡ type_in response }
{
    if response {
        TlvType::FilestoreResponse
    } else {
        TlvType::FilestoreRequest
    }
}

// ---- building: 4 (first name, second, message), 6 or 8, 9, 5

// A status has four bits, else 9.
#[tactic(auto, using(refusal::proofs::Laws::limit_in, refusal::proofs::Laws::limit_over))]
fn status_test(status: u8) -> Result<(), Refusal>
    ensures { told result ≡ status_test status }
{
    if 15 < status {
        return Err(Refusal::StatusTooLarge(status));
    }
    Ok(())
}

impl FilestoreTlvBase {
    // What building tests, all but the length of the value.
    #[tactic(auto, unfolding(crate::specs::Rules::parts_test))]
    fn parts_test(self) -> Result<(), Refusal>
        ensures { told result ≡ parts_test self }
    {
        self.first_name.size_test()?;
        size_test_if(self.second_name)?;
        size_test_if(self.message)?;
        due_test(self.action_code, self.second_name)?;
        status_test(self.low_bits)
    }

    // The length of the value. Here and below it is required that the building tests were passed: a struct that says so would be one more value to make.
    #[tactic(auto, using(crate::proofs::Laws::parts, crate::proofs::Laws::size_if_passed))]
    fn len(self) -> usize
        requires { gives tt ≡ parts_test self }
        ensures { result ≡ len_of self }
    {
        self.first_name.len + 2 + len_if(self.second_name) + len_if(self.message)
    }

    // What building tests, the length of the value last.
    #[tactic(auto, using(refusal::proofs::Laws::limit_in, refusal::proofs::Laws::limit_over), unfolding(crate::specs::Rules::build_test))]
    pub fn build_test(self) -> Result<(), Refusal>
        ensures { told result ≡ build_test self }
    {
        self.parts_test()?;
        let len = self.len();
        if 255 < len {
            return Err(Refusal::InvalidValueLength(len));
        }
        Ok(())
    }

    // The length of the value, behind the building tests.
    #[tactic(auto, using(crate::proofs::Laws::built), unfolding(crate::specs::Rules::len_value))]
    pub fn len_value(self) -> Result<usize, Refusal>
        ensures { told result ≡ len_value self }
    {
        self.build_test()?;
        Ok(self.len())
    }

    // The length of the whole TLV, behind the building tests.
    #[tactic(auto, using(crate::proofs::Laws::len_value_gives), unfolding(crate::specs::Rules::len_value, crate::specs::Rules::len_full))]
    pub fn len_full(self) -> Result<usize, Refusal>
        ensures { told result ≡ len_full self }
    {
        Ok(self.len_value()? + 2)
    }

    // 15 for the first span that passes the buffer's end: first name, second, message.
    #[tactic(auto, unfolding(crate::specs::Rules::spans_test))]
    fn span_test(self, buf: &[u8]) -> Result<(), Refusal>
        ensures { told result ≡ spans_test self buf.now }
    {
        self.first_name.span_test(buf)?;
        span_test_if(self.second_name, buf)?;
        span_test_if(self.message, buf)
    }

    // What a writer tests before the room: the building tests, then 15.
    #[tactic(auto, unfolding(crate::specs::Rules::write_test))]
    fn write_test(self, src: &[u8]) -> Result<(), Refusal>
        ensures { told result ≡ write_test self src.now }
    {
        self.build_test()?;
        self.span_test(src)
    }

    // Stores the type, the length and the value's first byte.
    fn put_head(self, buf: &mut [u8])
        requires { (gives tt ≡ build_test self) × (len_of self + 2 ≤ length buf.old) }
        ensures { buf.new ≡ set (set (set buf.old 0 (kind_of (is_there self.message))) 1 (len_of self)) 2 (code_of self.action_code * 16 + self.low_bits) }
    {
        buf[0] = tlv_type(self.message.is_some()).into();
        buf[1] = self.len() as u8;
        buf[2] = u8::from(self.action_code) * 16 + self.low_bits;
    }

    // Writes the names and the message behind the value's first byte.
    #[inline(always)]
    #[tactic(auto, using(crate::proofs::Laws::parts_laid))]
    fn put_parts(self, src: &[u8], buf: &mut [u8])
        requires { (gives tt ≡ write_test self src.now) × (len_of self + 2 ≤ length buf.old) }
        ensures { buf.new ≡ laid 3 (parts_of (meaning self src.now)) buf.old }
    {
        let second_at = self.first_name.len + 4;
        let message_at = second_at + len_if(self.second_name);
        put_if(Some(self.first_name), src, buf, 3);
        put_if(self.second_name, src, buf, second_at);
        put_if(self.message, src, buf, message_at);
    }

    // Writes the TLV to the front of buf; names and message lie in src. The building tests, 15, then 2. LLVM copies it into each caller: so the tests
    // for a message drop out where a request is written.
    #[inline(always)]
    pub fn write_to_slice(self, src: &[u8], buf: &mut [u8]) -> Result<usize, Refusal>
        ensures { Wrote 0 (write_base self src.now (length buf.old)) (told result) buf.old buf.new }
    {
        self.write_test(src)?;
        let found = buf.len();
        let expected = self.len() + 2;
        if found < expected {
            return Err(Refusal::ToSliceTooSmall { found, expected });
        }
        self.put_head(buf);
        self.put_parts(src, buf);
        Ok(expected)
    }

    // The same without the message: a request. No crate calls it today: its name is public, and its promise stands.
    pub fn write_request(self, src: &[u8], buf: &mut [u8]) -> Result<usize, Refusal>
        ensures { Wrote 0 (write_base (base_of self.action_code self.low_bits self.first_name self.second_name None) src.now (length buf.old)) (told result) buf.old buf.new }
    {
        let request = FilestoreTlvBase {
            message: None,
            ..self
        };
        request.write_to_slice(src, buf)
    }

    // Whether action and low bits are the same, of all that it holds.
    #[tactic(auto, using(action::proofs::Laws::one_code), unfolding(crate::specs::Rules::same_octet))]
    fn same_octet(self, other: FilestoreTlvBase) -> bool
        ensures { result ≡ same_octet self other }
    {
        self.action_code == other.action_code && self.low_bits == other.low_bits
    }

    // Whether names and message have the same bytes. It is no `==`: the bytes lie in two buffers.
    #[tactic(auto, unfolding(crate::specs::Rules::same_parts))]
    fn same_parts(self, buf: &[u8], other: FilestoreTlvBase, other_buf: &[u8]) -> bool
        ensures { result ≡ same_parts (meaning self buf.now) (meaning other other_buf.now) }
    {
        splice::same(
            self.first_name.value(buf),
            other.first_name.value(other_buf),
        ) && same_if(self.second_name, buf, other.second_name, other_buf)
            && same_if(self.message, buf, other.message, other_buf)
    }

    // Whether two mean the same, each in its own buffer. 15 for the first span that passes its buffer's end. It is no `==`, which could not refuse.
    #[tactic(auto, unfolding(crate::specs::Rules::same_base))]
    pub fn same(
        self,
        buf: &[u8],
        other: FilestoreTlvBase,
        other_buf: &[u8],
    ) -> Result<bool, Refusal>
        ensures { told result ≡ same_base self buf.now other other_buf.now }
    {
        self.span_test(buf)?;
        other.span_test(other_buf)?;
        Ok(self.same_octet(other) && self.same_parts(buf, other, other_buf))
    }
}

// What is told of a request and of a response alike: their builders' test, their lengths, their bytes, and whether two mean the same are those of
// what they hold.
pub trait FilestoreTlv: Copy {
    ghost use Rattle.filestore_base.specs.declared.FilestoreTlvBase.{FilestoreTlvBase};

    ghost held: { Self → FilestoreTlvBase };

    // What it holds.
    fn base(self) -> FilestoreTlvBase
        ensures { result ≡ held self };

    // Itself, where the building tests are passed.
    fn built(self) -> Result<Self, Refusal>
        ensures { told result ≡ also (build_test (held self)) (gives self) }
    {
        self.base().build_test()?;
        Ok(self)
    }

    // The length of the value. The building refusals first.
    fn len_value(self) -> Result<usize, Refusal>
        ensures { told result ≡ len_value (held self) }
    {
        self.base().len_value()
    }

    // The length of the whole TLV, with the type and length bytes. The building refusals first.
    fn len_full(self) -> Result<usize, Refusal>
        ensures { told result ≡ len_full (held self) }
    {
        self.base().len_full()
    }

    // The length of the written TLV: `len_full`, since the Rust has both names. The building refusals first.
    fn len_written(self) -> Result<usize, Refusal>
        ensures { told result ≡ len_full (held self) }
    {
        self.len_full()
    }

    // Writes the TLV to the front of buf; names and message lie in src. The building refusals, 15, then 2.
    fn write_to_slice(self, src: &[u8], buf: &mut [u8]) -> Result<usize, Refusal>
        ensures { Wrote 0 (write_base (held self) src.now (length buf.old)) (told result) buf.old buf.new }
    {
        self.base().write_to_slice(src, buf)
    }

    // Whether two have the same action, low bits, names and message, each in its own buffer. 15 for the first span that passes its buffer's end.
    // It is no `==`, which could not refuse, and would compare places.
    fn same(self, buf: &[u8], other: Self, other_buf: &[u8]) -> Result<bool, Refusal>
        ensures { told result ≡ same_base (held self) buf.now (held other) other_buf.now }
    {
        self.base().same(buf, other.base(), other_buf)
    }
}
