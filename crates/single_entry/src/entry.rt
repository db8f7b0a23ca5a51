//! Entries of regions.

/// Where a region is entered: the number of the one point through which it is, and between which positions it and that point lie.
#[derive(Clone, Copy)]
pub struct Entry {
    pub through: u32,
    pub low: u32,
    pub high: u32,
}

/// The entry of a point, and a far one, which goes on through the entries of several.
#[derive(Clone, Copy)]
pub(crate) struct Hop {
    pub(crate) near: Entry,
    pub(crate) far: Entry,
}
