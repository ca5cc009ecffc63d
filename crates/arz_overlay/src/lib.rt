//! Overlays (Overlay 1.0.0): reading an overlay document, and applying it to a tree.
#![tactic(auto)]

mod applying;
mod document;
mod fault;
pub mod laws;
mod once;
mod working;

pub use applying::apply;
pub use document::Overlay;
pub use fault::OverlayFault;
