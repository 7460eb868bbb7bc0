// The words behind the program's name.
ghost use Rattle.std.specs.Prelude.{◌≡◌, map, string_bytes};
ghost use Rattle.flicker_cli.specs.Commands.{command, word_command};

use flk_filters::Filter;

/// What a call is to do.
#[derive(Clone, Copy, Debug, PartialEq, Eq)]
pub enum Command {
    /// To run the script on its source, line by line.
    Run,
    /// To read its whole source, and write what this filter makes of it.
    Filter(Filter),
}

// The command of a word.
fn word_command(word: &str) -> Option<Command>
    ensures { result ≡ word_command word.now }
{
    if word == "run" {
        Some(Command::Run)
    } else if word == "asm" {
        Some(Command::Filter(Filter::Asm))
    } else if word == "dis" {
        Some(Command::Filter(Filter::Dis))
    } else if word == "measure" {
        Some(Command::Filter(Filter::Measure))
    } else if word == "verify" {
        Some(Command::Filter(Filter::Verify))
    } else {
        None
    }
}

/// What the words ask for; nothing where they are in no row of the table of commands.
pub fn command_of(words: &[String]) -> Option<Command>
    ensures { result ≡ command (map string_bytes words.now) }
{
    match words {
        [word] => word_command(word.as_str()),
        _ => None,
    }
}
