/// Where a node stands in the text that it was read from, in byte offsets: from the first byte of its first token to
/// behind the last byte of its last one. A node that was made has the span from 0 to 0.
#[derive(Clone, Copy, Debug, PartialEq, Eq)]
pub struct Span {
    pub start: u32,
    pub end: u32,
}

impl Span {
    /// The span of a node that stands in no text.
    pub const NOWHERE: Span = Span { start: 0, end: 0 };
}
