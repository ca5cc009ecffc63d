//! What comes of an answer in an execution with the runs that it makes: workflows that are read once, a run as it is looked
//! at, attempts that are judged and actions that are chosen, runs that are over and runs that are made, up to the next
//! request. Each part is proved against the workflow relation of `arz_relation`. The machine that rests at each ask and
//! takes its answer isn't built on them yet: `arz_machine` executes the linear part alone.
#![tactic(auto)]

mod copies;
mod depending;
mod endpoints;
mod frames;
mod front;
mod given;
mod goals;
mod ground;
mod inputs;
mod look;
mod looking;
mod machine;
mod opening;
mod plans;
mod settling;
mod steps;
mod trying;

pub use machine::MachineFault;
