// What a share lets someone do.

/// What someone may do with the records that a share covers, in order from the least to the most, as
/// `publicPermission` in "Record Dictionary" of the CloudKit Web Services Reference.
#[derive(Clone, Copy, Debug, PartialEq, Eq, PartialOrd, Ord)]
pub enum Permission {
    /// Not even see them.
    Nothing,
    /// See them.
    ReadOnly,
    /// See them and change them.
    ReadWrite,
}
