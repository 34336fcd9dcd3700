//! The texts that the words give, each in its slot.
ghost use Rattle.std.specs.Prelude.{◌≡◌, IfOk, false, map, string_bytes};
ghost use Rattle.clap.specs.Values.{kind_of};
ghost use Rattle.clap.specs.Words.{app_of, found_of, rows_of, rule_of};
ghost use Rattle.em_words.specs.Texts.{texts_of, texts_in};
ghost use Rattle.em_words.specs.ClapCommand.{command_line, option_rule, texts_of_rows};

use crate::fault::WordsFault;
use clap::error::ErrorKind;
use clap::{Arg, ArgAction, ArgMatches, Command, Error};
use std::alloc::{AllocError, Global};

/// The texts that the words give, each in its slot.
#[derive(Clone, Copy, Debug)]
pub(crate) struct Given<'a> {
    pub(crate) workers: Option<&'a str>,
    pub(crate) rounds: Option<&'a str>,
    pub(crate) command: Option<&'a str>,
    pub(crate) count: Option<&'a str>,
}

/// An option of this name, which takes one text and may stand once.
fn text_option<'a>(alloc: Global, name: &'a str) -> Arg<'a>
    ensures rule { rule_of result ≡ option_rule name.entry.now }
    ensures local { result.global ≡ false }
{
    Arg::new(alloc, name).long(name).action(ArgAction::Set)
}

/// The command line as `clap` is told of it: two options and two positionals, all of text.
fn command_line<'a>(alloc: Global) -> Result<Command<'a>, AllocError>
    ensures { IfOk result (λ command. app_of command ≡ command_line) }
{
    let workers = text_option(alloc, "workers");
    let rounds = text_option(alloc, "rounds");
    let command = Arg::new(alloc, "command");
    let count = Arg::new(alloc, "count");
    Command::new(alloc, "ematch")
        .no_binary_name(true)
        .disable_help_flag(true)
        .disable_version_flag(true)
        .arg(workers)?
        .arg(rounds)?
        .arg(command)?
        .arg(count)
}

/// The texts of a parse.
fn given_in<'a>(matches: &ArgMatches<'a>) -> Given<'a>
    ensures { texts_of result ≡ texts_of_rows (rows_of (found_of matches.now)) }
{
    Given {
        workers: matches.get_str("workers"),
        rounds: matches.get_str("rounds"),
        command: matches.get_str("command"),
        count: matches.get_str("count"),
    }
}

/// What an error of a parse is here.
fn fault_of(error: &Error) -> WordsFault
    ensures { kind_of error.now ≡ ErrorKind.OutOfMemory → result ≡ WordsFault.Memory }
{
    match error.kind() {
        ErrorKind::OutOfMemory => WordsFault::Memory,
        _ => WordsFault::Refused,
    }
}

/// Which word stands for what.
pub(crate) fn split_words<'a>(alloc: Global, words: &'a [String]) -> Result<Given<'a>, WordsFault>
    ensures ok { IfOk result (λ given. texts_in (map string_bytes words.now) ≡ Some (texts_of given)) }
    ensures refused { result ≡ Err WordsFault.Refused → texts_in (map string_bytes words.now) ≡ None }
{
    let command = command_line(alloc)?;
    match command.try_get_matches_from(words) {
        Ok(matches) => Ok(given_in(&matches)),
        Err(error) => Err(fault_of(&error)),
    }
}
