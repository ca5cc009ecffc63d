// How often retries were made.
use arz_json::Text;

/// How often a retry was made since its step was entered (Arazzo 1.0.1, 4.6.8: retryLimit).
#[derive(Debug, Drop)]
pub struct Count {
    /// The name of the action.
    pub name: Text,
    /// How often it was made.
    pub made: u32,
}
