// What a step calls.
use arz_operation::Operation;
use arz_world::Server;

/// The operation that a step calls (Arazzo 1.0.1, 4.6.5), and the server that its requests are sent to.
#[derive(Debug, Drop)]
pub struct Endpoint {
    /// The operation.
    pub operation: Operation,
    /// Its server.
    pub server: Server,
}
