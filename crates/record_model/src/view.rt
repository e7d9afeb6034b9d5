// What a user sees of a zone.
use crate::Rows;

/// What a user sees of a zone: whether it is here, and its records that the user sees, in ascending
/// order of their names.
#[derive(Debug, Drop)]
pub struct View {
    pub here: bool,
    pub rows: Rows,
}
