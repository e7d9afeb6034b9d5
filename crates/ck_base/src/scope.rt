// The two scopes of a user.

/// A user's own zones, or those that others share with the user, as the private and the shared
/// database of CloudKit.
#[derive(Clone, Copy, Debug, PartialEq, Eq, PartialOrd, Ord)]
pub enum Scope {
    Private,
    Shared,
}
