// The words of the command line.
ghost use Rattle.std.specs.Prelude.{◌≡◌, IfOk, map, string_bytes};
ghost use Rattle.arz_top.specs.Words.{taken, is_path, mock_row, check_row};

use arz_json::Text;
use std::alloc::AllocError;

/// What the words ask for.
#[derive(Debug, Drop)]
pub enum Command {
    /// Runs the workflow of a setup over given replies: the paths of the setup and of the replies.
    Mock(Text, Text),
    /// Loads the files of a setup: its path.
    Check(Text),
    /// Nothing that is known: the words aren't taken.
    Unknown,
}

/// The command that the words are.
pub(crate) fn read_words(words: &[String]) -> Result<Command, AllocError>
    ensures { IfOk result (λ command. command ≡ taken (map string_bytes words.now)) }
{
    match words {
        [] => Ok(Command::Unknown),
        [verb, rest @ ..] => {
            if verb.as_str() == "mock" {
                read_mock(rest)
            } else if verb.as_str() == "check" {
                read_check(rest)
            } else {
                Ok(Command::Unknown)
            }
        }
    }
}

fn read_mock(words: &[String]) -> Result<Command, AllocError>
    ensures { IfOk result (λ command. command ≡ mock_row (map string_bytes words.now)) }
{
    match words {
        [setup, replies] => {
            if is_path_text(setup.as_str()) && is_path_text(replies.as_str()) {
                return Ok(Command::Mock(
                    Text::from_std(setup.clone()?),
                    Text::from_std(replies.clone()?),
                ));
            }
            Ok(Command::Unknown)
        }
        _ => Ok(Command::Unknown),
    }
}

fn read_check(words: &[String]) -> Result<Command, AllocError>
    ensures { IfOk result (λ command. command ≡ check_row (map string_bytes words.now)) }
{
    match words {
        [setup] => {
            if is_path_text(setup.as_str()) {
                return Ok(Command::Check(Text::from_std(setup.clone()?)));
            }
            Ok(Command::Unknown)
        }
        _ => Ok(Command::Unknown),
    }
}

fn is_path_text(word: &str) -> bool
    ensures { result ≡ is_path word.now }
{
    match word.as_bytes() {
        [] => false,
        [first, ..] => *first != b'-',
    }
}
