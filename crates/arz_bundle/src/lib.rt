//! The files of a run: the first rule that one fails, and the bundle and the replies that they give.
#![tactic(auto)]

mod components;
mod fault;
mod files;
mod given;
pub mod laws;
mod loading;
mod naming;
mod overlays;
mod phases;
mod rules;
mod setup;
mod sources;
mod unbuilt;

pub use fault::LoadFault;
pub use given::replies;
pub use loading::load;
