//! The laws of loading, which hold of all files. None of them has code.
ghost use Rattle.arz_bundle.specs.Laws.{LoadsSome, GivesSome, LoadsValid, GivesStatuses};

/// Over files where each read of a path without a file fails, a setup and a file of replies come to
/// something else than want of memory: a bundle or replies, a refusal, or a file that can't be read.
pub fn files_come_to_something()
    ensures bundle { LoadsSome }
    ensures replies { GivesSome }
{}

/// A bundle that is loaded is valid, and replies that are given have a status of 200 to 599.
pub fn what_is_loaded_is_valid()
    ensures bundle { LoadsValid }
    ensures replies { GivesStatuses }
{}
