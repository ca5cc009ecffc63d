//! What the targets of requests are made of: the URLs of servers (OpenAPI 3.1.1, section 4.8.5) and the templates of
//! paths (section 4.8.8.2).
#![tactic(auto)]

mod escapes;
mod paths;
mod urls;

pub use escapes::push_plain;
pub use paths::{Cut, names, next_cut};
pub use urls::{ServerUrl, server_url};
