//! Laws, and what a handler answers.

use rs_wire::Blob;

/// What a handler gives for a content: an item at each index from 0, until it finishes.
#[derive(Clone, Copy, Debug, PartialEq, Eq)]
pub enum Law {
    /// The content, once.
    Echo,
    /// The content, once, with the ASCII letters a to z (bytes 0x61 to 0x7a) in upper case.
    Upper,
    /// The numbers below that of the content, from 0 on, in decimal: 5 items for `5`. The content
    /// is 1 to 9 ASCII digits, of which the first may be 0; for any other content there is no item.
    Count,
    /// No item.
    Drop,
}

/// What a handler answers at a content and an index.
#[derive(Debug, Drop, PartialEq, Eq)]
pub enum Produced {
    /// The item at the index.
    Item(Blob),
    /// There is no item at the index, and none at a later one.
    Finish,
    /// There was not enough memory. The same question may be asked again.
    OutOfMemory,
}
