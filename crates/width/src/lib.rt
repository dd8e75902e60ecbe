//! How wide text is, and hashes of its bytes.

#![tactic(auto)]

mod hash;
mod rule;
#[cfg(test)]
mod tests;

pub use hash::{Constant, Fnv, RowHash, feed_all, fnv1a};
pub use rule::{PerPoint, Table, WidthRule, text_width};
