//! Strokes of local producers.

use bytes::Bytes;
use srm_names::Page;

/// What a local producer drew: its number among the producers, the page, and the bytes.
#[derive(Debug, Drop, PartialEq, Eq)]
pub struct Stroke {
    /// The number of its producer, 0 to 3.
    pub pen: u8,
    /// The page that it is drawn on.
    pub page: Page,
    /// Its bytes. An agent refuses more than 1,024.
    pub body: Bytes,
}
