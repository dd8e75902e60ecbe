//! Colours, attributes and the styles made of them.

#![tactic(auto)]

mod color;
mod meaning;
mod style;

pub use color::Color;
pub use meaning::EqMeans;
pub use style::{Attributes, StyleSheet, Styled};
