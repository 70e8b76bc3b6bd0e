//! One argument after the other.

ghost use Rattle.std.specs.Prelude.{◌≡◌, IfOk, Some, true, false, codes};
ghost use Rattle.clap.specs.Walk.{rule_of};
ghost use Rattle.clap.specs.Simple.{app_of, with_rule};
ghost use Rattle.bisync_opts.specs.Command.{path_rule, flag_rule, short_flag_rule, option_rule, plain_app};

use clap::{Arg, ArgAction, Command};
use std::alloc::{AllocError, Global};

/// A command without options, that is given the words after its name.
pub fn plain_command<'a>(alloc: Global, name: &'a str) -> Command<'a>
    ensures { app_of result ≡ plain_app name.entry.now }
{
    Command::new(alloc, name)
        .no_binary_name(true)
        .disable_help_flag(true)
}

fn with<'a>(command: Command<'a>, arg: Arg<'a>) -> Result<Command<'a>, AllocError>
    requires { arg.global ≡ false }
    ensures { IfOk result (λ c. app_of c ≡ with_rule (app_of command.entry) (rule_of arg.entry)) }
{
    command.arg(arg)
}

fn flag<'a>(alloc: Global, name: &'a str) -> Arg<'a>
    ensures rule { rule_of result ≡ flag_rule name.entry.now }
    ensures local { result.global ≡ false }
{
    Arg::new(alloc, name).long(name).action(ArgAction::SetTrue)
}

/// A word that has to be there.
pub fn with_path<'a>(
    alloc: Global,
    command: Command<'a>,
    name: &'a str,
) -> Result<Command<'a>, AllocError>
    ensures { IfOk result (λ c. app_of c ≡ with_rule (app_of command.entry) (path_rule name.entry.now)) }
{
    let arg = Arg::new(alloc, name).required(true).action(ArgAction::Set);
    with(command, arg)
}

/// `--name`.
pub fn with_flag<'a>(
    alloc: Global,
    command: Command<'a>,
    name: &'a str,
) -> Result<Command<'a>, AllocError>
    ensures { IfOk result (λ c. app_of c ≡ with_rule (app_of command.entry) (flag_rule name.entry.now)) }
{
    with(command, flag(alloc, name))
}

/// `--name`, or `-letter`.
pub fn with_short_flag<'a>(
    alloc: Global,
    command: Command<'a>,
    name: &'a str,
    letter: char,
) -> Result<Command<'a>, AllocError>
    ensures { IfOk result (λ c. app_of c
        ≡ with_rule (app_of command.entry) (short_flag_rule name.entry.now letter)) }
{
    with(command, flag(alloc, name).short(letter))
}

/// `--name text`, or `--name=text`.
pub fn with_option<'a>(
    alloc: Global,
    command: Command<'a>,
    name: &'a str,
) -> Result<Command<'a>, AllocError>
    ensures { IfOk result (λ c. app_of c ≡ with_rule (app_of command.entry) (option_rule name.entry.now)) }
{
    let arg = Arg::new(alloc, name).long(name).action(ArgAction::Set);
    with(command, arg)
}
