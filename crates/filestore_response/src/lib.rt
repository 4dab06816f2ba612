// The filestore response TLV. Its names and its message are spans of a lent buffer.
// A port of FilestoreResponseTlv of src/cfdp/tlv/mod.rs of spacepackets 0.19.0, changed: spans for slices, numbered answers, building tests that
// count every byte of the value, and strict reading. What it shares with a request is in filestore_base and filestore_reader.
#![tactic(auto)]

ghost use Rattle.std.specs.Prelude.{◌≡◌};
ghost use Rattle.refusal.specs.Told.{told};
ghost use Rattle.lv.specs.Rules.{span};
ghost use Rattle.action.specs.Rules.{due_of};
ghost use Rattle.filestore_response.specs.Rules.{response_of, response_base, response_in, new_response, read_response, strict_response};

use action::FilestoreActionCode;
use filestore_base::{FilestoreTlv, FilestoreTlvBase};
use filestore_reader::Found;
use lv::Lv;
use refusal::Refusal;
use tlv::{GenericTlv, TlvType, TlvTypeField};

#[derive(Clone, Copy)]
pub struct FilestoreResponseTlv {
    pub action_code: FilestoreActionCode,
    pub status_code: u8,
    pub first_name: Lv,
    pub second_name: Option<Lv>,
    pub filestore_message: Lv,
}

// The response of what was found: the bytes left are forgotten. A message that was found is there.
impl From<Found> for FilestoreResponseTlv {
    ghost from_gives = { λ found q. q ≡ response_in found };

    fn from(found: Found) -> FilestoreResponseTlv {
        let base = found.base;
        FilestoreResponseTlv {
            action_code: base.action_code,
            status_code: base.low_bits,
            first_name: base.first_name,
            second_name: base.second_name,
            filestore_message: base.message.unwrap_or(Lv::new_empty()),
        }
    }
}

// Its label is standard 1.
impl GenericTlv for FilestoreResponseTlv {
    ghost use Rattle.tlv.specs.declared.TlvType.TheVariants.{FilestoreResponse};
    ghost use Rattle.tlv.specs.declared.TlvTypeField.TheVariants.{Standard};

    ghost label = { λ _. Standard FilestoreResponse };

    fn tlv_type_field(self) -> TlvTypeField {
        TlvTypeField::Standard(TlvType::FilestoreResponse)
    }
}

// What it holds: its status in the low bits, and a message. Its lengths, its writing and its comparing are filestore_base's.
impl FilestoreTlv for FilestoreResponseTlv {
    ghost held = { response_base };

    fn base(self) -> FilestoreTlvBase {
        FilestoreTlvBase {
            action_code: self.action_code,
            low_bits: self.status_code,
            first_name: self.first_name,
            second_name: self.second_name,
            message: Some(self.filestore_message),
        }
    }
}

impl FilestoreResponseTlv {
    // A response with an empty message, by the Rust's name. 4, 6 or 8, 9, then 5.
    pub fn new_no_filestore_message(
        action_code: FilestoreActionCode,
        status_code: u8,
        first_name: Lv,
        second_name: Option<Lv>,
    ) -> Result<FilestoreResponseTlv, Refusal>
        ensures { told result ≡ new_response (response_of action_code status_code first_name second_name (span 0 0)) }
    {
        FilestoreResponseTlv::new(
            action_code,
            status_code,
            first_name,
            second_name,
            Lv::new_empty(),
        )
    }

    // A response of an action, its status, its names and its message. 4, 6 or 8, 9, then 5.
    #[tactic(auto, unfolding(crate::specs::Rules::new_response))]
    pub fn new(
        action_code: FilestoreActionCode,
        status_code: u8,
        first_name: Lv,
        second_name: Option<Lv>,
        filestore_message: Lv,
    ) -> Result<FilestoreResponseTlv, Refusal>
        ensures { told result ≡ new_response (response_of action_code status_code first_name second_name filestore_message) }
    {
        FilestoreResponseTlv {
            action_code,
            status_code,
            first_name,
            second_name,
            filestore_message,
        }
        .built()
    }

    // Whether an action has a second name. The Rust has this name beside `fs_request_has_second_filename`.
    pub fn has_second_filename(action_code: FilestoreActionCode) -> bool
        ensures { result ≡ due_of action_code }
    {
        action::fs_request_has_second_filename(action_code)
    }

    // A request has getters of these names too: a trait for them would be as long.
    pub fn action_code(self) -> FilestoreActionCode
        ensures { result ≡ self.action_code }
    {
        self.action_code
    }

    pub fn status_code(self) -> u8
        ensures { result ≡ self.status_code }
    {
        self.status_code
    }

    pub fn first_name(self) -> Lv
        ensures { result ≡ self.first_name }
    {
        self.first_name
    }

    pub fn second_name(self) -> Option<Lv>
        ensures { result ≡ self.second_name }
    {
        self.second_name
    }

    pub fn filestore_message(self) -> Lv
        ensures { result ≡ self.filestore_message }
    {
        self.filestore_message
    }

    // The response at the front of buf. Bytes left in its value, and what stands behind it, are ignored. 1, 3, 1, then, for the value, 1 where it is empty,
    // 7, 1 for the first name, 6 or 1 for the second, 1 for the message.
    #[tactic(auto, unfolding(crate::specs::Rules::read_response))]
    pub fn from_bytes(buf: &[u8]) -> Result<FilestoreResponseTlv, Refusal>
        ensures { told result ≡ read_response buf.now }
    {
        let found = filestore_reader::from_bytes(buf, true)?;
        Ok(FilestoreResponseTlv::from(found))
    }

    // The same, and then: bytes left in the value give 12, a status that is not listed 13. A request's readers are two lines like these.
    #[tactic(auto, unfolding(crate::specs::Rules::strict_response))]
    pub fn from_bytes_strict(buf: &[u8]) -> Result<FilestoreResponseTlv, Refusal>
        ensures { told result ≡ strict_response buf.now }
    {
        let found = filestore_reader::from_bytes_strict(buf, true)?;
        Ok(FilestoreResponseTlv::from(found))
    }
}
