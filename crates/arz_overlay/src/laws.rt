//! Laws of overlays. Each is the contract of a function that does nothing.

ghost use Rattle.arz_overlay.specs.Documents.{QueriesAreThoseOfTheGrammar};

/// The segments of a target are those that the grammar of queries (RFC 9535) derives from it, where it has no
/// flaw and no more than 64 brackets are open; and a text that the grammar takes so has segments.
pub fn queries_are_those_of_the_grammar()
    ensures { QueriesAreThoseOfTheGrammar }
{}
