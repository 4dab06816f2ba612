// The entity ID TLV of CFDP: type 6, and as its value an unsigned big-endian number of 1, 2, 4 or 8 bytes.
// A port of EntityIdTlv in src/cfdp/tlv/mod.rs and of UnsignedByteField in src/util.rs of spacepackets 0.19.0, changed: numbered answers, and
// refusals before the first byte is read or written.
#![tactic(auto)]

ghost use Rattle.std.specs.Prelude.{◌≡◌, ◌+◌, ◌≤◌, length, take};
ghost use Rattle.refusal.specs.Answer.{gives, also};
ghost use Rattle.refusal.specs.Told.{told};
ghost use Rattle.splice.specs.Writing.{Wrote};
ghost use Rattle.number.specs.Rules.{of_be};
ghost use Rattle.entity_id.specs.Rules.{entity_of, id_of, meaning, label as entity_label, width_test, entity_test, new_entity, len_entity, head_test, type_test, read_entity, label_test, of_tlv, write_entity, room_test, MadeTlv, same_entity};
ghost use Rattle.entity_id.specs.Told.{told_entity};

use refusal::Refusal;
use tlv::{GenericTlv, Tlv, TlvType, TlvTypeField};

// A number and how many bytes it is written in.
#[derive(Clone, Copy, PartialEq, Eq)]
pub struct UnsignedByteField {
    pub width: usize,
    pub value: u64,
}

#[derive(Clone, Copy, PartialEq, Eq)]
pub struct EntityIdTlv {
    pub entity_id: UnsignedByteField,
}

// The type byte.
const ENTITY_ID: u8 = TlvType::EntityId as u8;

// 5 where a width is none of the four.
#[tactic(auto, unfolding(crate::specs::Rules::width_test, crate::specs::Rules::width_ok))]
fn width_test(width: usize) -> Result<(), Refusal>
    ensures { told result ≡ width_test width }
{
    match width {
        1 | 2 | 4 | 8 => Ok(()),
        _ => Err(Refusal::InvalidValueLength(width)),
    }
}

// 2 where n bytes have no room for the type and length bytes: the Rust's answer of readers too.
#[tactic(auto, unfolding(crate::specs::Rules::head_test))]
fn head_test(n: usize) -> Result<(), Refusal>
    ensures { told result ≡ head_test n }
{
    if n < 2 {
        return Err(Refusal::ToSliceTooSmall {
            found: n,
            expected: 2,
        });
    }
    Ok(())
}

// 3 where a type byte is another.
#[tactic(auto, unfolding(crate::specs::Rules::type_test))]
fn type_test(found: u8) -> Result<(), Refusal>
    ensures { told result ≡ type_test found }
{
    let expected = ENTITY_ID;
    if found != expected {
        return Err(Refusal::InvalidTlvTypeFieldError { found, expected });
    }
    Ok(())
}

// 3 where a label is not the standard one: a custom label never is.
#[tactic(auto, unfolding(crate::specs::Rules::label_test))]
fn label_test(field: TlvTypeField) -> Result<(), Refusal>
    ensures { told result ≡ label_test field }
{
    match field {
        TlvTypeField::Standard(t) => type_test(u8::from(t)),
        TlvTypeField::Custom(found) => Err(Refusal::InvalidTlvTypeFieldError {
            found,
            expected: ENTITY_ID,
        }),
    }
}

// The number of the first WIDTH bytes of v. Their count is a constant, so that LLVM makes it one load.
#[tactic(auto, using(crate::proofs::Laws::read_first))]
fn first<const WIDTH: usize>(v: &[u8]) -> Result<u64, Refusal>
    requires inside { WIDTH ≤ length v.now }
    requires short { WIDTH ≤ 8 }
    ensures { told result ≡ gives (of_be (take WIDTH v.now)) }
{
    number::read(&v[..WIDTH])
}

// The number of the bytes v. 5 where their count is no width. The widths are compared one by one: of a match on the four LLVM makes a table of jumps,
// 15 to 20 instructions more for a read, and 6 to 9 for a write.
#[tactic(auto, unfolding(crate::specs::Rules::width_test, crate::specs::Rules::width_ok))]
fn value_of(v: &[u8]) -> Result<u64, Refusal>
    ensures { told result ≡ also (width_test (length v.now)) (gives (of_be v.now)) }
{
    let width = v.len();
    if 4 <= width {
        if width == 8 {
            return first::<8>(v);
        }
        if width == 4 {
            return first::<4>(v);
        }
    } else {
        if width == 1 {
            return first::<1>(v);
        }
        if width == 2 {
            return first::<2>(v);
        }
    }
    Err(Refusal::InvalidValueLength(width))
}

// Writes an entity ID of the width WIDTH to the front of buf. 5, 10, then 2. The width is a constant, so that LLVM makes the number one store.
fn written<const WIDTH: usize>(value: u64, buf: &mut [u8]) -> Result<usize, Refusal>
    ensures { Wrote 0 (write_entity (entity_of WIDTH value) (length buf.old)) (told result) buf.old buf.new }
{
    let id = UnsignedByteField {
        width: WIDTH,
        value,
    };
    id.room_test(buf.len())?;
    buf[0] = ENTITY_ID;
    buf[1] = WIDTH as u8;
    number::write(value, WIDTH, buf, 2)?;
    Ok(WIDTH + 2)
}

impl UnsignedByteField {
    // What building tests: 5, then 10.
    #[tactic(auto, unfolding(crate::specs::Rules::entity_test))]
    fn test(self) -> Result<(), Refusal>
        ensures { told result ≡ entity_test (id_of self) }
    {
        width_test(self.width)?;
        number::test(self.value, self.width)
    }

    // Whether an entity ID can be written to n bytes: 5, 10, then 2. Where there is room, one test says so.
    #[tactic(auto, using(crate::proofs::Laws::entity_test_short), unfolding(crate::specs::Rules::write_entity, crate::specs::Rules::write_test))]
    fn room_test(self, n: usize) -> Result<(), Refusal>
        ensures { told result ≡ room_test (id_of self) n }
    {
        self.test()?;
        let expected = self.width + 2;
        if n < expected {
            head_test(n)?;
            return Err(Refusal::ToSliceTooSmall { found: n, expected });
        }
        Ok(())
    }
}

impl EntityIdTlv {
    // 5, then 10.
    #[tactic(auto, unfolding(crate::specs::Rules::new_entity))]
    pub fn new(entity_id: UnsignedByteField) -> Result<EntityIdTlv, Refusal>
        ensures { told_entity result ≡ new_entity (id_of entity_id) }
    {
        entity_id.test()?;
        Ok(EntityIdTlv { entity_id })
    }

    pub fn entity_id(self) -> UnsignedByteField
        ensures { result ≡ self.entity_id }
    {
        self.entity_id
    }

    // The length of the value: the width.
    pub fn len_value(self) -> usize
        ensures { result ≡ self.entity_id.width }
    {
        self.entity_id.width
    }

    // The length of the whole TLV, with the type and length bytes. 5, then 10.
    #[tactic(auto, using(crate::proofs::Laws::entity_test_short), unfolding(crate::specs::Rules::len_entity))]
    pub fn len_full(self) -> Result<usize, Refusal>
        ensures { told result ≡ len_entity (meaning self) }
    {
        let id = self.entity_id;
        id.test()?;
        Ok(id.width + 2)
    }

    // The entity ID at the front of buf. What stands behind it is ignored. 2, 3, 5, then 1. Where the value is all there, the width is looked at once:
    // by the choice of how it is read.
    #[tactic(auto, using(crate::proofs::Laws::head_test_passed, crate::proofs::Laws::value_test_short), unfolding(crate::specs::Rules::read_entity, crate::specs::Rules::take_entity))]
    pub fn from_bytes(buf: &[u8]) -> Result<EntityIdTlv, Refusal>
        ensures { told_entity result ≡ read_entity buf.now }
    {
        let found = buf.len();
        head_test(found)?;
        type_test(buf[0])?;
        let width = buf[1] as usize;
        let expected = width + 2;
        if found < expected {
            width_test(width)?;
            return Err(Refusal::FromSliceTooSmall {
                found,
                expected,
                place: 0,
            });
        }
        let value = value_of(&buf[2..expected])?;
        Ok(EntityIdTlv {
            entity_id: UnsignedByteField { width, value },
        })
    }

    // Writes the number alone to buf, from byte 2 on, and gives the TLV whose value it is. 5, 10, then 2.
    #[tactic(auto, unfolding(crate::specs::Rules::tlv_entity))]
    pub fn to_tlv(self, buf: &mut [u8]) -> Result<Tlv, Refusal>
        ensures { MadeTlv (meaning self) (told result) buf.old buf.new }
    {
        let id = self.entity_id;
        id.room_test(buf.len())?;
        number::write(id.value, id.width, buf, 2)?;
        Tlv::new(TlvType::EntityId, 2, id.width)
    }

    // Writes the TLV to the front of buf, by a way for each width, chosen as in `value_of`. 5, 10, then 2.
    #[tactic(auto, using(crate::proofs::Laws::width_none, crate::proofs::Laws::write_entity_width, splice::proofs::Writing::wrote_not))]
    pub fn write_to_slice(self, buf: &mut [u8]) -> Result<usize, Refusal>
        ensures { Wrote 0 (write_entity (meaning self) (length buf.old)) (told result) buf.old buf.new }
    {
        let width = self.entity_id.width;
        let value = self.entity_id.value;
        if 4 <= width {
            if width == 8 {
                return written::<8>(value, buf);
            }
            if width == 4 {
                return written::<4>(value, buf);
            }
        } else {
            if width == 1 {
                return written::<1>(value, buf);
            }
            if width == 2 {
                return written::<2>(value, buf);
            }
        }
        Err(Refusal::InvalidValueLength(width))
    }

    // The length of the written TLV: `len_full`, since the Rust has both names. 5, then 10.
    pub fn len_written(self) -> Result<usize, Refusal>
        ensures { told result ≡ len_entity (meaning self) }
    {
        self.len_full()
    }

    // The entity ID of a generic TLV whose value lies in buf. 3, 5, then 15.
    #[tactic(auto, unfolding(crate::specs::Rules::of_tlv))]
    pub fn from_tlv(tlv: Tlv, buf: &[u8]) -> Result<EntityIdTlv, Refusal>
        ensures { told_entity result ≡ of_tlv tlv buf.now }
    {
        label_test(tlv.tlv_type_field)?;
        let l = tlv.lv;
        width_test(l.len)?;
        l.span_test(buf)?;
        let value = value_of(l.value(buf))?;
        Ok(EntityIdTlv {
            entity_id: UnsignedByteField {
                width: l.len,
                value,
            },
        })
    }

    // Whether two entity IDs have the same width and the same number: `==`, by the name that every TLV has for it.
    #[tactic(auto, unfolding(crate::specs::Rules::same_entity))]
    pub fn same(self, other: EntityIdTlv) -> bool
        ensures { result ≡ same_entity (meaning self) (meaning other) }
    {
        self == other
    }
}

impl GenericTlv for EntityIdTlv {
    ghost label = { λ _. entity_label };

    fn tlv_type_field(self) -> TlvTypeField {
        TlvTypeField::Standard(TlvType::EntityId)
    }
}
