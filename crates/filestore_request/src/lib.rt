// The filestore request TLV. Its names are spans of a lent buffer.
// A port of FilestoreRequestTlv of src/cfdp/tlv/mod.rs of spacepackets 0.19.0, changed: spans for slices, numbered answers, building tests that
// count every byte of the value, and strict reading. What it shares with a response is in filestore_base and filestore_reader.
#![tactic(auto)]

ghost use Rattle.std.specs.Prelude.{◌≡◌, Some, None};
ghost use Rattle.refusal.specs.Told.{told};
ghost use Rattle.filestore_request.specs.Rules.{request_of, request_base, request_in, new_request, read_request, strict_request};

use action::FilestoreActionCode;
use filestore_base::{FilestoreTlv, FilestoreTlvBase};
use filestore_reader::Found;
use lv::Lv;
use refusal::Refusal;
use tlv::{GenericTlv, TlvType, TlvTypeField};

#[derive(Clone, Copy)]
pub struct FilestoreRequestTlv {
    pub action_code: FilestoreActionCode,
    pub first_name: Lv,
    pub second_name: Option<Lv>,
}

// The request of what was found: its low bits and the bytes left are forgotten.
impl From<Found> for FilestoreRequestTlv {
    ghost from_gives = { λ found q. q ≡ request_in found };

    fn from(found: Found) -> FilestoreRequestTlv {
        let base = found.base;
        FilestoreRequestTlv {
            action_code: base.action_code,
            first_name: base.first_name,
            second_name: base.second_name,
        }
    }
}

// Its label is standard 0.
impl GenericTlv for FilestoreRequestTlv {
    ghost use Rattle.tlv.specs.declared.TlvType.TheVariants.{FilestoreRequest};
    ghost use Rattle.tlv.specs.declared.TlvTypeField.TheVariants.{Standard};

    ghost label = { λ _. Standard FilestoreRequest };

    fn tlv_type_field(self) -> TlvTypeField {
        TlvTypeField::Standard(TlvType::FilestoreRequest)
    }
}

// What it holds: low bits 0, and no message. Its lengths, its writing and its comparing are filestore_base's.
impl FilestoreTlv for FilestoreRequestTlv {
    ghost held = { request_base };

    fn base(self) -> FilestoreTlvBase {
        FilestoreTlvBase {
            action_code: self.action_code,
            low_bits: 0,
            first_name: self.first_name,
            second_name: self.second_name,
            message: None,
        }
    }
}

impl FilestoreRequestTlv {
    // A builder for each action, with the names that it has. Their names are those of the Rust. 4, then 5.
    pub fn new_create_file(file_name: Lv) -> Result<FilestoreRequestTlv, Refusal>
        ensures { told result ≡ new_request (request_of FilestoreActionCode.CreateFile file_name None) }
    {
        FilestoreRequestTlv::new(FilestoreActionCode::CreateFile, file_name, None)
    }

    pub fn new_delete_file(file_name: Lv) -> Result<FilestoreRequestTlv, Refusal>
        ensures { told result ≡ new_request (request_of FilestoreActionCode.DeleteFile file_name None) }
    {
        FilestoreRequestTlv::new(FilestoreActionCode::DeleteFile, file_name, None)
    }

    pub fn new_rename_file(source_name: Lv, target_name: Lv) -> Result<FilestoreRequestTlv, Refusal>
        ensures { told result ≡ new_request (request_of FilestoreActionCode.RenameFile source_name (Some target_name)) }
    {
        FilestoreRequestTlv::new(
            FilestoreActionCode::RenameFile,
            source_name,
            Some(target_name),
        )
    }

    pub fn new_append_file(first_file: Lv, second_file: Lv) -> Result<FilestoreRequestTlv, Refusal>
        ensures { told result ≡ new_request (request_of FilestoreActionCode.AppendFile first_file (Some second_file)) }
    {
        FilestoreRequestTlv::new(
            FilestoreActionCode::AppendFile,
            first_file,
            Some(second_file),
        )
    }

    pub fn new_replace_file(replaced_file: Lv, new_file: Lv) -> Result<FilestoreRequestTlv, Refusal>
        ensures { told result ≡ new_request (request_of FilestoreActionCode.ReplaceFile replaced_file (Some new_file)) }
    {
        FilestoreRequestTlv::new(
            FilestoreActionCode::ReplaceFile,
            replaced_file,
            Some(new_file),
        )
    }

    pub fn new_create_directory(dir_name: Lv) -> Result<FilestoreRequestTlv, Refusal>
        ensures { told result ≡ new_request (request_of FilestoreActionCode.CreateDirectory dir_name None) }
    {
        FilestoreRequestTlv::new(FilestoreActionCode::CreateDirectory, dir_name, None)
    }

    pub fn new_remove_directory(dir_name: Lv) -> Result<FilestoreRequestTlv, Refusal>
        ensures { told result ≡ new_request (request_of FilestoreActionCode.RemoveDirectory dir_name None) }
    {
        FilestoreRequestTlv::new(FilestoreActionCode::RemoveDirectory, dir_name, None)
    }

    pub fn new_deny_file(file_name: Lv) -> Result<FilestoreRequestTlv, Refusal>
        ensures { told result ≡ new_request (request_of FilestoreActionCode.DenyFile file_name None) }
    {
        FilestoreRequestTlv::new(FilestoreActionCode::DenyFile, file_name, None)
    }

    pub fn new_deny_directory(dir_name: Lv) -> Result<FilestoreRequestTlv, Refusal>
        ensures { told result ≡ new_request (request_of FilestoreActionCode.DenyDirectory dir_name None) }
    {
        FilestoreRequestTlv::new(FilestoreActionCode::DenyDirectory, dir_name, None)
    }

    // A request of an action and its names. 4, 6 or 8, then 5.
    #[tactic(auto, unfolding(crate::specs::Rules::new_request))]
    pub fn new(
        action_code: FilestoreActionCode,
        first_name: Lv,
        second_name: Option<Lv>,
    ) -> Result<FilestoreRequestTlv, Refusal>
        ensures { told result ≡ new_request (request_of action_code first_name second_name) }
    {
        FilestoreRequestTlv {
            action_code,
            first_name,
            second_name,
        }
        .built()
    }

    // A response has getters of these names too: a trait for them would be as long.
    pub fn action_code(self) -> FilestoreActionCode
        ensures { result ≡ self.action_code }
    {
        self.action_code
    }

    pub fn first_name(self) -> Lv
        ensures { result ≡ self.first_name }
    {
        self.first_name
    }

    pub fn second_name(self) -> Option<Lv>
        ensures { result ≡ self.second_name }
    {
        self.second_name
    }

    // The request at the front of buf. Low bits, bytes left in its value, and what stands behind it are ignored. 1, 3, 1, then, for the value, 1 where it
    // is empty, 7, 1 for the first name, 6 or 1 for the second.
    #[tactic(auto, unfolding(crate::specs::Rules::read_request))]
    pub fn from_bytes(buf: &[u8]) -> Result<FilestoreRequestTlv, Refusal>
        ensures { told result ≡ read_request buf.now }
    {
        let found = filestore_reader::from_bytes(buf, false)?;
        Ok(FilestoreRequestTlv::from(found))
    }

    // The same, and then: low bits that are not 0 give 11, bytes left in the value 12. A response's readers are two lines like these: each contract names
    // the rule of its own TLV.
    #[tactic(auto, unfolding(crate::specs::Rules::strict_request))]
    pub fn from_bytes_strict(buf: &[u8]) -> Result<FilestoreRequestTlv, Refusal>
        ensures { told result ≡ strict_request buf.now }
    {
        let found = filestore_reader::from_bytes_strict(buf, false)?;
        Ok(FilestoreRequestTlv::from(found))
    }
}
