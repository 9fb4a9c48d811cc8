//! What a cache knows of a vertex's file without asking for it.

use gm_store::FileName;

/// What is known of the file of a vertex without asking for it.
#[derive(Drop)]
pub(crate) enum Lookup {
    /// The file is kept at this place, which is noted for the vertex.
    Noted(u32),
    /// The file comes from a proxy, and its path isn't fetchable, so it is not asked for.
    NotFetchable,
    /// The file is kept at this place, as that of a replacement.
    Replacing(u32),
    /// Nothing is kept of the file, which has this name.
    New(FileName),
}
