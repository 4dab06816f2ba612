// The actions of a filestore request or response, and whether an action has a second name.
// A port of FilestoreActionCode and fs_request_has_second_filename of src/cfdp/tlv/mod.rs of spacepackets 0.19.0.
#![tactic(auto)]

ghost use Rattle.refusal.specs.Told.{told};
ghost use Rattle.std.specs.Prelude.{◌≡◌};
ghost use Rattle.action.specs.Rules.{code_of, action_of, due_of};

use refusal::Refusal;

#[derive(Clone, Copy, PartialEq, Eq)]
pub enum FilestoreActionCode {
    CreateFile = 0,
    DeleteFile = 1,
    RenameFile = 2,
    AppendFile = 3,
    ReplaceFile = 4,
    CreateDirectory = 5,
    RemoveDirectory = 6,
    DenyFile = 7,
    DenyDirectory = 8,
}

// The action of a number. 7 where it has none. The numbers stand here once more: a number has to be matched to be read.
impl TryFrom<u8> for FilestoreActionCode {
    type Error = Refusal;

    ghost try_from_gives = { λ code r. told r ≡ action_of code };

    #[tactic(auto, using(crate::proofs::Laws::action_of_none), unfolding(crate::specs::Rules::action_of, crate::specs::Rules::action_at))]
    fn try_from(code: u8) -> Result<Self, Refusal> {
        match code {
            0 => Ok(FilestoreActionCode::CreateFile),
            1 => Ok(FilestoreActionCode::DeleteFile),
            2 => Ok(FilestoreActionCode::RenameFile),
            3 => Ok(FilestoreActionCode::AppendFile),
            4 => Ok(FilestoreActionCode::ReplaceFile),
            5 => Ok(FilestoreActionCode::CreateDirectory),
            6 => Ok(FilestoreActionCode::RemoveDirectory),
            7 => Ok(FilestoreActionCode::DenyFile),
            8 => Ok(FilestoreActionCode::DenyDirectory),
            _ => Err(Refusal::InvalidFilestoreActionCode(code)),
        }
    }
}

// The number of an action.
impl From<FilestoreActionCode> for u8 {
    ghost from_gives = { λ action code. code ≡ code_of action };

    fn from(action_code: FilestoreActionCode) -> u8 {
        action_code as u8
    }
}

// Whether an action has a second name.
pub fn fs_request_has_second_filename(action_code: FilestoreActionCode) -> bool
    ensures { result ≡ due_of action_code }
{
    matches!(
        action_code,
        FilestoreActionCode::RenameFile
            | FilestoreActionCode::AppendFile
            | FilestoreActionCode::ReplaceFile
    )
}
