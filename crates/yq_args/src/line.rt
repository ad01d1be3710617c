//! The command line as `clap` takes it.
ghost use Rattle.std.specs.Prelude.{◌≡◌, IfOk, IfErr, false, true, map};
ghost use Rattle.clap.specs.Words.{app_of, rule_of, new_app, subcommand_rows_of, subcommand_of, takes, fault_of, FailsBy, kind_of};
ghost use Rattle.clap.specs.declared.builder.command.Command.TheViews.{out-Command as fields_of};
ghost use Rattle.yq_args.specs.Line.{argument_rule, command_app, with_arguments};
ghost use Rattle.yq_args.specs.Line as spec;

use clap::error::ErrorKind;
use clap::{Arg, ArgAction, ArgMatches, Command, Error};
use std::alloc::{AllocError, Global};

/// An argument of a command.
#[derive(Clone, Copy)]
enum Argument {
    /// `-i`
    Inplace,
    /// `-e`
    ExitStatus,
    /// `-N`
    NoDoc,
    /// `-d`
    Diff,
    /// `--expect-change`
    ExpectChange,
    /// `--journal PATH`
    Journal,
    /// `--explain`
    Explain,
    /// `--text TEXT`
    Text,
    /// EXPR
    Expr,
    /// N
    Count,
    /// FILE
    File,
}

/// A word that names a command.
#[derive(Clone, Copy)]
enum SubCommand {
    Eval,
    Undo,
    Redo,
    History,
    Squash,
}

/// A word that has to be there.
fn positional<'a>(alloc: Global, id: &'a str) -> Arg<'a>
    ensures rule { rule_of result ≡ spec.positional id.entry.now }
    ensures local { result.global ≡ false }
{
    Arg::new(alloc, id).required(true)
}

/// An option without a value.
fn switch<'a>(alloc: Global, id: &'a str, short: char) -> Arg<'a>
    ensures rule { rule_of result ≡ spec.switch id.entry.now short }
    ensures local { result.global ≡ false }
{
    Arg::new(alloc, id)
        .short(short)
        .long(id)
        .action(ArgAction::SetTrue)
}

/// An option without a value, and without a letter.
fn long_switch<'a>(alloc: Global, id: &'a str) -> Arg<'a>
    ensures rule { rule_of result ≡ spec.long_switch id.entry.now }
    ensures local { result.global ≡ false }
{
    Arg::new(alloc, id).long(id).action(ArgAction::SetTrue)
}

/// An argument as `clap` has it.
fn arg_of<'a>(alloc: Global, argument: Argument) -> Arg<'a>
    ensures rule { rule_of result ≡ argument_rule argument }
    ensures local { result.global ≡ false }
{
    match argument {
        Argument::Inplace => switch(alloc, "inplace", 'i'),
        Argument::ExitStatus => switch(alloc, "exit-status", 'e'),
        Argument::NoDoc => switch(alloc, "no-doc", 'N'),
        Argument::Diff => switch(alloc, "diff", 'd'),
        Argument::ExpectChange => long_switch(alloc, "expect-change"),
        Argument::Journal => Arg::new(alloc, "journal").long("journal"),
        Argument::Explain => long_switch(alloc, "explain"),
        Argument::Text => Arg::new(alloc, "text").long("text"),
        Argument::Expr => positional(alloc, "expr"),
        Argument::Count => positional(alloc, "n"),
        Argument::File => positional(alloc, "file"),
    }
}

/// A command's name and its arguments.
fn parts_of<'a>(word: SubCommand) -> (&'a str, &'a [Argument])
    ensures { with_arguments (new_app result.0.now) result.1.now ≡ command_app word }
{
    match word {
        SubCommand::Eval => (
            "eval",
            &[
                Argument::Inplace,
                Argument::ExitStatus,
                Argument::NoDoc,
                Argument::Diff,
                Argument::ExpectChange,
                Argument::Journal,
                Argument::Explain,
                Argument::Text,
                Argument::Expr,
                Argument::File,
            ],
        ),
        SubCommand::Undo => (
            "undo",
            &[Argument::Journal, Argument::Explain, Argument::File],
        ),
        SubCommand::Redo => (
            "redo",
            &[Argument::Journal, Argument::Explain, Argument::File],
        ),
        SubCommand::History => (
            "history",
            &[
                Argument::Journal,
                Argument::Explain,
                Argument::Diff,
                Argument::File,
            ],
        ),
        SubCommand::Squash => (
            "squash",
            &[
                Argument::Journal,
                Argument::Explain,
                Argument::Count,
                Argument::File,
            ],
        ),
    }
}

/// The command of a word.
fn sub_command<'a>(alloc: Global, word: SubCommand) -> Result<Command<'a>, AllocError>
    ensures app { IfOk result (λ c. app_of c ≡ command_app word) }
    ensures local { IfOk result (λ c. (fields_of c).has_globals ≡ false) }
{
    let (name, args) = parts_of(word);
    let mut command = Command::new(alloc, name);
    let mut rest = args;
    'arguments: while let [arg, after @ ..] = rest {
        command = command.arg(arg_of(alloc, *arg))?;
        rest = after;
    }
    Ok(command)
}

/// The whole command line.
#[tactic(auto, unfolding(crate::specs::Line::yq, crate::specs::Line::four_commands, crate::specs::Line::two_commands))]
fn line<'a>(alloc: Global) -> Result<Command<'a>, AllocError>
    ensures app { IfOk result (λ c. app_of c ≡ spec.yq) }
{
    let mut command = Command::new(alloc, "yq");
    let mut rest: &[SubCommand] = &[
        SubCommand::Eval,
        SubCommand::Undo,
        SubCommand::Redo,
        SubCommand::History,
        SubCommand::Squash,
    ];
    'commands: while let [word, after @ ..] = rest {
        command = command.subcommand(sub_command(alloc, *word)?)?;
        rest = after;
    }
    Ok(command)
}

/// What `clap` finds in the words, of which the first is the program's name.
#[tactic(auto, unfolding(crate::specs::Line::yq, crate::specs::Line::four_commands, crate::specs::Line::two_commands))]
pub fn matched<'a>(alloc: Global, words: &'a [&'a str]) -> Result<ArgMatches<'a>, Error>
    ensures ok { IfOk result (λ m. subcommand_rows_of m ≡ subcommand_of spec.yq
        (map (λ w. w.now) words.entry.now)) }
    ensures taken { IfOk result (λ m. takes spec.yq (map (λ w. w.now) words.entry.now) ≡ true) }
    ensures passes { IfErr result (λ e. takes spec.yq (map (λ w. w.now) words.entry.now) ≡ true →
        kind_of e ≡ ErrorKind.OutOfMemory) }
    ensures kinds { FailsBy (fault_of spec.yq (map (λ w. w.now) words.entry.now)) result }
{
    line(alloc)?.try_get_matches_from(words)
}
