//! Reading the words behind the program's name.

ghost use Rattle.std.specs.Prelude.{◌≡◌, ◌≢◌, true, codes, IfErr, IfOk, IsErrOf, map, string_bytes};
ghost use Rattle.std.specs.List.{list_any};
ghost use Rattle.clap.specs.Words.{HasMatchesOf, app_of, kind_of, takes};
ghost use Rattle.clap.specs.declared.error.kind.ErrorKind.TheVariants as kind;
ghost use Rattle.command_line.specs.declared.command.Command.{Command};
ghost use Rattle.command_line.specs.Command.{IsCommand, IsCommandLine, begins_with_hyphen, parser_app};

use crate::command::{Command, command_of};
use clap::error::ErrorKind;
use clap::{Arg, ArgMatches, Error};
use std::alloc::Global;

/// What the one argument is called that takes all the words.
const WORDS: &str = "words";

/// The most words that a command has.
const WORDS_MOST: usize = 4;

/// Why there is no command.
#[derive(Clone, Copy)]
pub enum NoCommand {
    /// The words are none of the program's commands.
    Usage,
    OutOfMemory,
}

fn is_option(word: &String) -> bool
    ensures { result ≡ begins_with_hyphen (string_bytes word.now) }
{
    match word.as_bytes() {
        [first, ..] => *first == b'-',
        [] => false,
    }
}

fn has_option(words: &[String]) -> bool
    ensures { result ≡ list_any (λ word. begins_with_hyphen (string_bytes word)) words.now }
{
    words.iter().any(|word| is_option(word))
}

/// Parses one to four words, none of which is an option.
fn parse<'a>(alloc: Global, words: &'a [String]) -> Result<ArgMatches<'a>, NoCommand>
    ensures matches { IfOk result (HasMatchesOf parser_app (map string_bytes words.now)) }
    ensures usage { IsErrOf result NoCommand.Usage → ¬ (takes parser_app (map string_bytes words.now) ≡ true) }
{
    match parser(alloc)?.try_get_matches_from(words) {
        Ok(matches) => Ok(matches),
        Err(error) => Err(no_command(&error)),
    }
}

fn no_command(error: &Error) -> NoCommand
    ensures { result ≡ NoCommand.Usage → kind_of error.now ≢ kind.OutOfMemory }
{
    match error.kind() {
        ErrorKind::OutOfMemory => NoCommand::OutOfMemory,
        _ => NoCommand::Usage,
    }
}

fn parser<'a>(alloc: Global) -> Result<clap::Command<'a>, NoCommand>
    ensures app { IfOk result (λ command. app_of command ≡ parser_app) }
    ensures memory { IfErr result (λ cause. cause ≡ NoCommand.OutOfMemory) }
{
    let values = Arg::new(alloc, WORDS)
        .required(true)
        .num_args(1..=WORDS_MOST);
    let command = clap::Command::new(alloc, "balloc")
        .no_binary_name(true)
        .disable_help_flag(true)
        .arg(values);
    command.map_err(|_| NoCommand::OutOfMemory)
}

/// The command that the words behind the program's name are.
pub fn read_words(alloc: Global, words: &[String]) -> Result<Command, NoCommand>
    ensures ok { IfOk result (λ command. IsCommandLine command (map string_bytes words.now)) }
    ensures only { IfOk result (λ command.
        (other : Command) → IsCommandLine other (map string_bytes words.now) → other ≡ command) }
    ensures usage { IsErrOf result NoCommand.Usage → ¬ IsCommand (map string_bytes words.now) }
{
    if has_option(words) {
        return Err(NoCommand::Usage);
    }
    let matches = parse(alloc, words)?;
    let Some(values) = matches.get_strs(WORDS) else {
        return Err(NoCommand::Usage);
    };
    command_of(values).ok_or(NoCommand::Usage)
}
