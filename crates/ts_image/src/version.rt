//! Versions of images, and the first bytes of all images.

/// The first four bytes of each image. The version's byte follows.
pub(crate) const MARK: &[u8; 4] = b"TSIM";

/// The version of an image.
#[derive(Clone, Copy, Debug, Drop)]
pub enum Version {
    /// Images of stores without an open run.
    V1,
    /// Images of all stores, with a flag for the open run and one for each column that waits for it.
    V2,
}
