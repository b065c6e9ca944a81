//! The files of a sample.
use vkb_bytes::Bytes;

/// A registry and a chapter over its structs and extensions.
#[derive(Debug, Drop)]
pub struct Sample {
    pub registry: Bytes,
    pub chapter: Bytes,
}
