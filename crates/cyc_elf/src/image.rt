//! An executable image in memory, which consists of segments, an entry address and optional limits.

/// A loadable segment of an image.
///
/// A segment has `size` bytes of memory from `vaddr` on, rounded up to a multiple of 4. The first bytes of a segment are `bytes`, and its
/// other bytes are 0. The zeros are not stored, so a short file cannot require much memory by a large `size`.
#[derive(Debug, PartialEq, Eq, Drop)]
pub struct Segment {
    /// The address of the segment's first byte.
    pub vaddr: u32,
    /// The header's flags: 1 execute, 2 write, 4 read.
    pub flags: u32,
    /// The segment's bytes that are stored in the file.
    pub bytes: Vec<u8>,
    /// The size of the segment in memory, in bytes, as the program header states it.
    pub size: u32,
}

/// An executable image: its entry address, its segments in the order of their headers, and its limits on pages and calls, if any.
#[derive(Debug, PartialEq, Eq, Drop)]
pub struct Image {
    /// The address of the image's first instruction.
    pub entry: u32,
    /// The segments of the image, in the order of their program headers.
    pub segments: Vec<Segment>,
    /// The limits of runs, if the image states them: the number of pages of the store, from 3 to 65,536, and the maximal number of
    /// simultaneous calls, from 1 to 4,096.
    pub note: Option<(u32, u32)>,
}
