// Why a buffer was not added, not edited, its rules not changed, and why it was not saved.
use mgs_model::Decision;
use thiserror::Error;

/// Why a buffer was not added, in the order in which the faults are checked.
#[derive(Clone, Copy, Debug, PartialEq, Eq, Error)]
pub enum AddFault {
    /// The name is none of a buffer (1 to 32 visible ASCII characters), the owner's none of a user (of them, lower-case
    /// letters, digits, `-` and `_`), or the group's none of a group (as a user's).
    #[error("it is no name")]
    Name,
    /// There is a buffer of that name.
    #[error("there is a buffer of that name")]
    Twice,
    /// There are 256 buffers.
    #[error("there are too many buffers")]
    Full,
    /// The text has more than 1,048,576 characters.
    #[error("the text is too long")]
    Long,
    /// Memory was refused.
    #[error("no memory")]
    Short,
}

/// Why a user did not edit a buffer. The rights are judged before memory is taken.
#[derive(Clone, Copy, Debug, PartialEq, Eq, Error)]
pub enum EditFault {
    /// The buffer's access list does not grant the rights: what it decides, which is not `Granted`.
    #[error("denied")]
    Denied(Decision),
    /// Memory was refused.
    #[error("no memory")]
    Short,
}

/// Why a user did not change an entry of a buffer's access list, in the order in which the faults are checked.
#[derive(Clone, Copy, Debug, PartialEq, Eq, Error)]
pub enum EntriesFault {
    /// There is no such buffer.
    #[error("there is no such buffer")]
    NoBuffer,
    /// The list does not grant WRITE_ACL: what it decides, which is not `Granted`.
    #[error("denied")]
    Denied(Decision),
    /// The index is past the last entry.
    #[error("there is no such entry")]
    NoSuchEntry,
    /// The list has 64 entries.
    #[error("the list is full")]
    Full,
}

/// Why a user did not change a buffer's owner or owning group, in the order in which the faults are checked.
#[derive(Clone, Copy, Debug, PartialEq, Eq, Error)]
pub enum OwnersFault {
    /// There is no such buffer.
    #[error("there is no such buffer")]
    NoBuffer,
    /// The list does not grant WRITE_OWNER: what it decides, which is not `Granted`.
    #[error("denied")]
    Denied(Decision),
    /// The directory has no such user.
    #[error("there is no such user")]
    NoSuchUser,
    /// The directory has no such group.
    #[error("there is no such group")]
    NoSuchGroup,
}

/// Why a user did not save a buffer, in the order in which the faults are checked.
#[derive(Clone, Copy, Debug, PartialEq, Eq, Error)]
pub enum SaveFault {
    /// The buffer's access list does not grant READ_DATA and WRITE_DATA: what it decides, which is not `Granted`.
    #[error("denied")]
    Denied(Decision),
    /// The buffer has no file.
    #[error("No file")]
    NoFile,
    /// The store could not save the text, and counted the fault.
    #[error("Save failed")]
    Store,
}
