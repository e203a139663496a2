//! What reading one line gives.

use crate::item::Item;

/// What a line of the grammar gives.
#[derive(Drop)]
pub enum Reading {
    /// No item: the line is skipped.
    Skipped,
    /// One item.
    Read(Item),
}
