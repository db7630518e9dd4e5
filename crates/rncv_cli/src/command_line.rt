// Reading the words of the command line.
ghost use Rattle.std.specs.Prelude.{◌≡◌, List, drop, map, string_bytes, option_map, IfOk, IfErr, IsErrOf};
ghost use Rattle.std.specs.Vec.Iter.{into_iter_items};
ghost use Rattle.clap.specs.Words.{FailsBy, fault_of, found_of, matches_of, rows_of};
ghost use Rattle.rncv_cli.specs.plain.CommandLine.{IsCommandLine, Text, words_behind_name};
ghost use Rattle.rncv_cli.specs.plain.CommandLineForm.{command_in, files_in, form};
ghost use Rattle.rncv_cli.specs.views.Faults.{IsMemoryOrUsage};

use crate::fault::Fault;
use crate::invocation::Words;
use clap::error::ErrorKind;
use clap::{Arg, ArgAction, ArgMatches, Error};
use rncv_run::Command;
use std::alloc::{AllocError, Global};
use std::env::Args;

/// Reads the words after the first one, which is the program's name, as `words` does, with the same faults and cost.
pub fn words_given(alloc: Global, given: Args) -> Result<Words, Fault>
    ensures ok { IfOk result (λ w. IsCommandLine (words_behind_name (into_iter_items given)) w.command (map string_bytes w.files.items)) }
    ensures usage { IsErrOf result Fault.Usage → (command : Command) (files : List Text) →
        IsCommandLine (words_behind_name (into_iter_items given)) command files → ⊥ }
    ensures fault { IfErr result IsMemoryOrUsage }
{
    let Ok(all) = all_but_first(alloc, given) else {
        return Err(Fault::Memory);
    };
    words(alloc, all.as_slice())
}

/// Returns all words except the first, in order.
fn all_but_first(alloc: Global, mut given: Args) -> Result<Vec<String>, AllocError>
    ensures { IfOk result (λ all. all.items ≡ drop 1 (into_iter_items given)) }
{
    let _ = given.next();
    let mut all = Vec::new(alloc);
    'words: while let Some(word) = given.next() {
        all.push(word)?;
    }
    Ok(all)
}

/// Reads the words after the program's name as a command line: a command, `valid`, `check` or `simple`, followed by one
/// or more files.
///
/// The first `--` is dropped. Before it, or everywhere if there is none, no word may be an option: a word that begins
/// with `-` and is longer. Returns the command and the files of a command line. Fails with `Usage` only for words that
/// are no command line, and with `Memory` when out of memory. Costs time and memory in the order of the bytes of the
/// words.
pub fn words(alloc: Global, words: &[String]) -> Result<Words, Fault>
    ensures ok { IfOk result (λ w. IsCommandLine (map string_bytes words.now) w.command (map string_bytes w.files.items)) }
    ensures usage { IsErrOf result Fault.Usage → (command : Command) (files : List Text) → IsCommandLine (map string_bytes words.now) command files → ⊥ }
    ensures fault { IfErr result IsMemoryOrUsage }
{
    let matches = parsed(alloc, words).map_err(|e| match e.kind() {
        ErrorKind::OutOfMemory => Fault::Memory,
        _ => Fault::Usage,
    })?;
    let Some(command) = command_of(&matches) else {
        return Err(Fault::Usage);
    };
    let Some(names) = names_of(&matches) else {
        return Err(Fault::Usage);
    };
    let files = copies(alloc, names).map_err(|_| Fault::Memory)?;
    Ok(Words { command, files })
}

/// Returns the command that was found, if it is one.
fn command_of(matches: &ArgMatches<'_>) -> Option<Command>
    ensures { result ≡ command_in (rows_of (found_of matches.now)) }
{
    match matches.get_str("command")? {
        "valid" => Some(Command::Valid),
        "check" => Some(Command::Check),
        "simple" => Some(Command::Simple),
        _ => None,
    }
}

/// Returns the names of files that were found, if there are any.
fn names_of<'m, 'a>(matches: &'m ArgMatches<'a>) -> Option<&'m [&'a str]>
    ensures { option_map (λ names. map (λ name. name.now) names.now) result ≡ files_in (rows_of (found_of matches.now)) }
{
    matches.get_strs("files")
}

/// Parses the words by the form `COMMAND FILES..`, which has no options.
///
/// The command is a positional argument and not a subcommand, so that a `--` may come before it, and `help` is not a
/// command.
fn parsed<'a>(alloc: Global, words: &'a [String]) -> Result<ArgMatches<'a>, Error>
    ensures fails { FailsBy (fault_of form (map string_bytes words.now)) result }
    ensures matches { IfOk result (λ m. rows_of (found_of m) ≡ matches_of form (map string_bytes words.now)) }
{
    let command = Arg::new(alloc, "command")
        .required(true)
        .action(ArgAction::Set);
    let files = Arg::new(alloc, "files").required(true).num_args(1..);
    clap::Command::new(alloc, "rncv")
        .no_binary_name(true)
        .disable_help_flag(true)
        .arg(command)?
        .arg(files)?
        .try_get_matches_from(words)
}

/// Returns a copy of each text, in order.
fn copies(alloc: Global, texts: &[&str]) -> Result<Vec<String>, AllocError>
    ensures { IfOk result (λ all. map string_bytes all.items ≡ map (λ t. t.now) texts.now) }
{
    let mut all = Vec::new(alloc);
    for text in texts {
        all.push(String::from_str(alloc, text)?)?;
    }
    Ok(all)
}
