//! Calls of the libraries that write and read bytes of a device, over what cases describe: the wire form of
//! trees and entries, journals, requests, replies and conversations. [`DeviceCall`] lists them.
#![tactic(auto)]

mod added;
mod calls;
mod conversations;
mod journals;
mod replies;
mod requests;
mod wires;

pub use calls::DeviceCall;
