// The library's values, made from the words of a case: each from the last words, as many as it has.
use entity_id::{EntityIdTlv, UnsignedByteField};
use lv::Lv;
use test_text::Words;
use tlv::{Tlv, TlvType, TlvTypeField};

// A type field from its number, 256 and more for a custom label.
pub(crate) fn field(x: usize) -> TlvTypeField {
    let byte = (x % 256) as u8;
    if x < 256 {
        return TlvTypeField::from(byte);
    }
    TlvTypeField::Custom(byte)
}

// A standard type from its number.
pub(crate) fn tlv_type(x: usize) -> TlvType {
    match field(x) {
        TlvTypeField::Standard(t) => t,
        TlvTypeField::Custom(_) => TlvType::EntityId,
    }
}

pub(crate) fn lv(w: Words) -> Lv {
    let [.., start, len] = w;
    Lv { start, len }
}

pub(crate) fn tlv(w: Words) -> Tlv {
    let [.., label, _, _] = w;
    Tlv {
        tlv_type_field: field(label),
        lv: lv(w),
    }
}

fn entity_of(width: usize, number: usize) -> EntityIdTlv {
    EntityIdTlv {
        entity_id: UnsignedByteField {
            width,
            value: number as u64,
        },
    }
}

// The entity ID of the last two words, and that of the two before them.
pub(crate) fn entity(w: Words) -> EntityIdTlv {
    let [.., width, number] = w;
    entity_of(width, number)
}

pub(crate) fn entity_before(w: Words) -> EntityIdTlv {
    let [.., width, number, _, _] = w;
    entity_of(width, number)
}
