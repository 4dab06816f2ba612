// The length-value (LV) of CFDP 5.1.8: one length byte L, then L bytes. An `Lv` is the span of its value in a lent buffer.
// A port of src/cfdp/lv.rs of spacepackets 0.19.0, changed: spans for slices, numbered answers, and refusals before the first byte is written.
#![tactic(auto)]

ghost use Rattle.std.specs.Prelude.{◌≡◌, length, eqb};
ghost use Rattle.refusal.specs.Answer.{short_at};
ghost use Rattle.refusal.specs.Told.{told};
ghost use Rattle.splice.specs.Writing.{Wrote};
ghost use Rattle.lv.specs.Rules.{span, part_of, span_test, size_test, write_test, new_lv, len_full, read_lv, read_lv_at, write_lv, write_lv_at, same_lv};

use refusal::Refusal;

// Where a value lies in the buffer that it was read from, or that it is written from. Document 01 has spans for slices, and C hands them over.
// No `==` is derived: it would compare places, and `same` compares bytes.
#[derive(Clone, Copy)]
pub struct Lv {
    pub start: usize,
    pub len: usize,
}

// Refusal 1. Each layer makes it by itself, with the place that it tells.
fn short(place: usize, found: usize, expected: usize) -> Result<Lv, Refusal>
    ensures { told result ≡ short_at place found expected }
{
    Err(Refusal::FromSliceTooSmall {
        found,
        expected,
        place,
    })
}

impl Lv {
    // The least number of bytes of an LV.
    pub const MIN_LEN: usize = 1;

    // The value of len bytes from start on. 4 where they are too many.
    #[tactic(auto, unfolding(crate::specs::Rules::new_lv))]
    pub fn new(start: usize, len: usize) -> Result<Lv, Refusal>
        ensures { told result ≡ new_lv start len }
    {
        let lv = Lv { start, len };
        lv.size_test()?;
        Ok(lv)
    }

    // The empty value.
    pub fn new_empty() -> Lv
        ensures { result ≡ span 0 0 }
    {
        Lv { start: 0, len: 0 }
    }

    // The length of the value, without the length byte.
    pub fn len_value(self) -> usize
        ensures { result ≡ self.len }
    {
        self.len
    }

    // The length of the whole LV, with the length byte. 4 where the value is too long.
    #[tactic(auto, using(crate::proofs::Laws::size_test_passed), unfolding(crate::specs::Rules::len_full))]
    pub fn len_full(self) -> Result<usize, Refusal>
        ensures { told result ≡ len_full self }
    {
        self.size_test()?;
        Ok(self.len + 1)
    }

    pub fn is_empty(self) -> bool
        ensures { result ≡ eqb self.len 0 }
    {
        self.len == 0
    }

    // The value, as a part of the buffer, or the buffer's first 0 bytes where the span passes its end: `span_test` tells that.
    // The test stands here again, so that there is no answer to take apart.
    pub fn value(self, buf: &[u8]) -> &[u8]
        ensures { result.now ≡ part_of self buf.now }
    {
        let Lv { start, len } = self;
        if buf.len() < start {
            return &buf[..0];
        }
        if buf.len() - start < len {
            return &buf[..0];
        }
        &buf[start..start + len]
    }

    // 15 where the span passes the buffer's end.
    pub fn span_test(self, buf: &[u8]) -> Result<(), Refusal>
        ensures { told result ≡ span_test self buf.now }
    {
        let Lv { start, len } = self;
        if buf.len() < start {
            return Err(Refusal::PlacePastEnd(start));
        }
        if buf.len() - start < len {
            return Err(Refusal::PlacePastEnd(start));
        }
        Ok(())
    }

    // 4 where the value is too long.
    pub fn size_test(self) -> Result<(), Refusal>
        ensures { told result ≡ size_test self }
    {
        let len = self.len;
        if 255 < len {
            return Err(Refusal::TlvLvDataTooLargeError(len));
        }
        Ok(())
    }

    // What a writer tests before the room: 4, then 15.
    #[tactic(auto, unfolding(crate::specs::Rules::write_test))]
    pub fn write_test(self, src: &[u8]) -> Result<(), Refusal>
        ensures { told result ≡ write_test self src.now }
    {
        self.size_test()?;
        self.span_test(src)
    }

    // Writes the LV to the front of buf; its value lies in src. 4, 15, then 2.
    pub fn write_to_slice(self, src: &[u8], buf: &mut [u8]) -> Result<usize, Refusal>
        ensures { Wrote 0 (write_lv self src.now (length buf.old)) (told result) buf.old buf.new }
    {
        self.write_at(src, buf, 0)
    }

    // Writes the LV to buf from the place at on. 4, 15 for the place, 15 for the span, then 2, counted from the place.
    pub fn write_at(self, src: &[u8], buf: &mut [u8], at: usize) -> Result<usize, Refusal>
        ensures { Wrote at (write_lv_at self src.now at (length buf.old)) (told result) buf.old buf.new }
    {
        self.size_test()?;
        if buf.len() < at {
            return Err(Refusal::PlacePastEnd(at));
        }
        self.span_test(src)?;
        let v = self.value(src);
        let found = buf.len() - at;
        let expected = v.len() + 1;
        if found < expected {
            return Err(Refusal::ToSliceTooSmall { found, expected });
        }
        buf[at] = v.len() as u8;
        splice::put(buf, at + 1, v)?;
        Ok(expected)
    }

    // The LV at the front of buf. What stands behind it is ignored. 1.
    pub fn from_bytes(buf: &[u8]) -> Result<Lv, Refusal>
        ensures { told result ≡ read_lv buf.now }
    {
        let end = buf.len();
        Lv::read_at(buf, 0, end)
    }

    // The LV that starts at the place at and ends at the place end or before. 15 where end is past the buffer's end, 15 where at is past end, then 1 with
    // the place at.
    pub fn read_at(buf: &[u8], at: usize, end: usize) -> Result<Lv, Refusal>
        ensures { told result ≡ read_lv_at buf.now at end }
    {
        if buf.len() < end {
            return Err(Refusal::PlacePastEnd(end));
        }
        if end < at {
            return Err(Refusal::PlacePastEnd(at));
        }
        let found = end - at;
        if found < Lv::MIN_LEN {
            return short(at, found, Lv::MIN_LEN);
        }
        let len = buf[at] as usize;
        if found < len + 1 {
            return short(at, found, len + 1);
        }
        let start = at + 1;
        Ok(Lv { start, len })
    }

    // Whether two LVs hold the same value, each in its own buffer. 15 for its own span, then for the other's.
    // It is no `==`, which could not refuse, and would compare places.
    #[tactic(auto, unfolding(crate::specs::Rules::same_lv))]
    pub fn same(self, buf: &[u8], other: Lv, other_buf: &[u8]) -> Result<bool, Refusal>
        ensures { told result ≡ same_lv self buf.now other other_buf.now }
    {
        self.span_test(buf)?;
        other.span_test(other_buf)?;
        Ok(splice::same(self.value(buf), other.value(other_buf)))
    }
}
