//! The real forms of the outside: the files of a folder, a file and a TCP stream, standard output, and patterns that `regex`
//! searches for. Each is made from the part of the runtime that it needs, and opens nothing when it is
//! made.
#![tactic(auto)]

mod compiled;
mod folder_files;
mod kept;
mod real_world;
mod regex_patterns;
mod stdout_sink;

pub use folder_files::FolderFiles;
pub use real_world::RealWorld;
pub use regex_patterns::RegexPatterns;
pub use stdout_sink::StdoutSink;
