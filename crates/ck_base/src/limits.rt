//! The limits of the service, as numbers.

/// How many locks the zones share.
pub const LOCKS: u8 = 16;

/// The most bytes of a name.
pub const NAME_BYTES: usize = 255;

/// The least byte of a name, a space.
pub const FIRST_NAME_BYTE: u8 = 0x20;

/// The greatest byte of a name, a tilde.
pub const LAST_NAME_BYTE: u8 = 0x7E;

/// The most bytes of a request's head.
pub const HEAD_BYTES: usize = 16_384;

/// The most line feeds of a request's head.
pub const HEAD_LINES: usize = 128;

/// The most bytes of a request's body.
pub const BODY_BYTES: usize = 4_194_304;

/// The most requests on one connection.
pub const REQUESTS: u64 = 100_000;

/// The most operations, names, zones, GUIDs or IDs in a request.
pub const LIST_ITEMS: usize = 200;

/// The most zones in a request for the changes of zones.
pub const CHANGED_ZONES: usize = 16;

/// The most entries in a page and rows of a query, which is also how many there are by default.
pub const PAGE_ENTRIES: u64 = 200;

/// The most participants of a share besides its owner.
pub const PARTICIPANTS: usize = 100;

/// The greatest size of a record, which is the sum over its fields of the name's bytes, 8, and the
/// value's size.
pub const RECORD_SIZE: u64 = 1_048_576;

/// The most filters of a query.
pub const FILTERS: usize = 16;

/// The most sort fields of a query.
pub const SORT_FIELDS: usize = 3;

/// The most bytes of a reply's body that the client takes.
pub const REPLY_BYTES: u64 = 268_435_456;

/// How many records the client asks for in a page, and how many operations it sends in a batch.
pub const CLIENT_BATCH: usize = 20;
