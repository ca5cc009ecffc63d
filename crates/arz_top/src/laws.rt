//! The laws of endings, which hold of all files and words. None of them has code.
ghost use Rattle.arz_top.specs.Laws.{OneEnding, TellingAll, AskingNothing, EndingOrRun};

/// Over files that tell what they hold, and of which a read failed only where no file is there, and over patterns
/// that tell what the command asks of them, of which none was too big, the words come to no two endings. A command
/// whose setup lists no overlay and whose description has simple criteria alone asks nothing of patterns.
pub fn one_ending()
    ensures { OneEnding }
{}

/// Patterns that tell all, and of which none was too big, tell what a command asks of them, whatever the files hold.
pub fn patterns_that_tell_all()
    ensures { TellingAll }
{}

/// Whatever patterns tell, and however big they are, they tell what a command asks of them whose setup lists no
/// overlay, whose description has no criterion that is a pattern, and that runs simple criteria alone.
pub fn patterns_that_are_not_asked()
    ensures { AskingNothing }
{}

/// Over files where each read of a path without a file fails, the words come to an ending, or they are
/// `mock` and the files give a bundle and replies, over which the execution has an end, where what it asks of
/// patterns is told. So `check`
/// always comes to an ending; of `mock` it isn't said that the outputs of that end can be printed.
pub fn an_ending_or_a_run()
    ensures { EndingOrRun }
{}
