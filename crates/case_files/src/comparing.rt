// Where two runs of bytes differ, and what a report shows of them.

/// How many bytes a report shows ahead of the first that is wrong, and how many in all.
const AHEAD: usize = 24;

const SHOWN: usize = 120;

/// How many bytes at the front are the same.
pub fn same_front(a: &[u8], b: &[u8]) -> usize {
    let both = a.len().min(b.len());
    a.iter()
        .zip(b.iter())
        .position(|(x, y)| x != y)
        .unwrap_or(both)
}

/// Where a report begins to show bytes whose first wrong one is at a place.
pub fn shown_from(place: usize) -> usize {
    place.saturating_sub(AHEAD)
}

/// What a report shows from a place on.
pub fn window(bytes: &[u8], from: usize) -> &[u8] {
    let rest = &bytes[from.min(bytes.len())..];
    &rest[..SHOWN.min(rest.len())]
}
