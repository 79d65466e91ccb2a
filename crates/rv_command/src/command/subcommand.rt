//! A command of the program as the table has it, and the `clap` command of it.
ghost use Rattle.std.specs.Prelude.{◌≡◌, IfOk, false, fold};
ghost use Rattle.clap.specs.Simple.{app_of, shape_of};
ghost use Rattle.clap.specs.Walk.{rule_of};
ghost use Rattle.clap.specs.declared.builder.command.Command.TheViews.{out-Command as fields_of};
ghost use Rattle.rv_command.specs.ClapProgram as known;
ghost use Rattle.rv_command.specs.internal.Commands as commands;

use crate::status::{Asks, Statuses};
use clap::{Arg, ArgAction, Command};
use std::alloc::{AllocError, Global};

/// What a command takes after its name, and what the help says of it.
#[derive(Clone, Copy)]
pub enum Argument {
    /// A word that has to stand at its place.
    Word {
        name: &'static str,
        help: &'static str,
    },
    /// One word or more at the end of the line.
    Words {
        name: &'static str,
        help: &'static str,
    },
    /// An option `--name N` that has to be given.
    Required {
        name: &'static str,
        help: &'static str,
    },
    /// An option `--name VALUE` that may be left out.
    Optional {
        name: &'static str,
        value: &'static str,
        help: &'static str,
    },
    /// A flag `--name`.
    Flag {
        name: &'static str,
        help: &'static str,
    },
}

/// A command with its arguments, the texts that its help has before and after their list, and the options that ask for the
/// statuses of what is found.
#[derive(Clone, Copy)]
pub struct Subcommand {
    pub name: &'static str,
    pub about: &'static str,
    pub after: &'static str,
    pub asks: Option<Asks>,
    pub arguments: &'static [Argument],
}

impl Argument {
    fn arg<'a>(self, alloc: Global) -> Arg<'a>
        ensures rule { rule_of result ≡ commands.rule self }
        ensures local { result.global ≡ false }
    {
        match self {
            Argument::Word { name, help } => Arg::new(alloc, name).required(true).help(help),
            Argument::Required { name, help } => option(alloc, name, "N", help).required(true),
            Argument::Optional { name, value, help } => option(alloc, name, value, help),
            Argument::Flag { name, help } => flag(alloc, name, help),
            Argument::Words { name, help } => words(alloc, name, help),
        }
    }
}

/// An option `--name VALUE`.
fn option<'a>(alloc: Global, name: &'a str, value: &'a str, help: &'a str) -> Arg<'a>
    ensures rule { rule_of result ≡ known.option name.entry.now }
    ensures local { result.global ≡ false }
{
    Arg::new(alloc, name)
        .long(name)
        .value_name(value)
        .help(help)
}

/// One word or more.
fn words<'a>(alloc: Global, name: &'a str, help: &'a str) -> Arg<'a>
    ensures rule { rule_of result ≡ known.required_words name.entry.now }
    ensures local { result.global ≡ false }
{
    Arg::new(alloc, name)
        .required(true)
        .num_args(1..)
        .help(help)
}

/// A flag `--name`.
fn flag<'a>(alloc: Global, name: &'a str, help: &'a str) -> Arg<'a>
    ensures rule { rule_of result ≡ known.flag name.entry.now }
    ensures local { result.global ≡ false }
{
    Arg::new(alloc, name)
        .long(name)
        .action(ArgAction::SetTrue)
        .help(help)
}

impl Subcommand {
    /// What the help says after the arguments.
    pub fn after_help(self, alloc: Global) -> Result<String, AllocError> {
        let statuses = Statuses { asks: self.asks };
        format!(in alloc; "{}\n\n{statuses}", self.after)
    }

    fn command<'a>(
        self,
        alloc: Global,
        after: Option<&'a String>,
    ) -> Result<Command<'a>, AllocError>
        ensures { IfOk result (λ c. (shape_of c ≡ commands.shape self) × ((fields_of c).has_globals ≡ false)) }
    {
        let command = Command::new(alloc, self.name).about(self.about);
        let command = match after {
            Some(text) => command.after_help(text.as_str()),
            None => command,
        };
        with_arguments(alloc, command, self.arguments)
    }
}

/// The command with more arguments.
#[tactic(auto, using(std::proofs::lemmas::List::Sums::fold_more))]
fn with_arguments<'a>(
    alloc: Global,
    command: Command<'a>,
    arguments: &[Argument],
) -> Result<Command<'a>, AllocError>
    ensures shape { IfOk result (λ c. shape_of c ≡ fold commands.with_argument (shape_of command.entry) arguments.now) }
    ensures local { IfOk result (λ c. (fields_of c).has_globals ≡ (fields_of command.entry).has_globals) }
{
    let mut command = command;
    for argument in arguments {
        command = with_argument(alloc, command, *argument)?;
    }
    Ok(command)
}

/// The command with an argument more.
fn with_argument<'a>(
    alloc: Global,
    command: Command<'a>,
    argument: Argument,
) -> Result<Command<'a>, AllocError>
    ensures shape { IfOk result (λ c. shape_of c ≡ commands.with_argument (shape_of command.entry) argument) }
    ensures local { IfOk result (λ c. (fields_of c).has_globals ≡ (fields_of command.entry).has_globals) }
{
    command.arg(argument.arg(alloc))
}

/// The program with more commands, with what their help says after the arguments, where that is given.
#[tactic(auto, using(std::proofs::lemmas::List::Sums::fold_more))]
pub fn with_subcommands<'a>(
    alloc: Global,
    program: Command<'a>,
    subcommands: &[Subcommand],
    after: &'a [String],
) -> Result<Command<'a>, AllocError>
    ensures { IfOk result (λ c. app_of c ≡ fold commands.with_subcommand (app_of program.entry) subcommands.now) }
{
    let mut program = program;
    for (place, subcommand) in subcommands.iter().enumerate() {
        program = with_subcommand(alloc, program, *subcommand, after.get(place))?;
    }
    Ok(program)
}

/// The program with a command more.
fn with_subcommand<'a>(
    alloc: Global,
    program: Command<'a>,
    subcommand: Subcommand,
    after: Option<&'a String>,
) -> Result<Command<'a>, AllocError>
    ensures { IfOk result (λ c. app_of c ≡ commands.with_subcommand (app_of program.entry) subcommand) }
{
    program.subcommand(subcommand.command(alloc, after)?)
}
