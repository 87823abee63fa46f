//! What a header has to say.
use crate::keys::{END, IDENTIFIER, LABEL, SUMMARY};
use crate::walk::Bounds;

/// A header's key, the length of its records in packets, and the bounds of its secondary key.
#[derive(Clone, Copy)]
pub(crate) struct Due {
    pub(crate) key: u32,
    pub(crate) length: u32,
    pub(crate) bounds: Bounds,
}

// Written out, since a constant's value may call no function.
impl Due {
    /// The label's header.
    pub(crate) const LABEL: Due = Due {
        key: LABEL,
        length: 1,
        bounds: Bounds::NONE,
    };

    /// The identifier's header.
    pub(crate) const IDENTIFIER: Due = Due {
        key: IDENTIFIER,
        length: 1,
        bounds: Bounds::NONE,
    };

    /// The summary's header.
    pub(crate) const SUMMARY: Due = Due {
        key: SUMMARY,
        length: 1,
        bounds: Bounds::NONE,
    };

    /// The end packet, which has no records.
    pub(crate) const END: Due = Due {
        key: END,
        length: 0,
        bounds: Bounds::NONE,
    };
}
