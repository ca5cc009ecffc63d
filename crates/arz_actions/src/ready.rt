// An action that is read.
use arz_cond::Test;
use arz_description::Act;
use arz_json::{Many, Text};

/// A success action or a failure action (Arazzo 1.0.1, sections 4.6.7 and 4.6.8), ready to be tried.
#[derive(Debug, Drop)]
pub struct Ready {
    /// Its name.
    pub name: Text,
    /// What it does.
    pub act: Act,
    /// What must hold for it to be done.
    pub criteria: Many<Test>,
}
