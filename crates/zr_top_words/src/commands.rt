//! The commands of the program with their options, each with its line of help. A new option is a line here, a line in `specs/App.antt`, and a field
//! of the plan.

ghost use Rattle.std.specs.Prelude.{◌≡◌, false, IfOk};
ghost use Rattle.clap.specs.Words.{app_of, rule_of, shape_of};
ghost use Rattle.zr_top_words.specs.App.{app, flag, make, net, optional, serve, wanted, words_beside};

use clap::{Arg, ArgAction, Command};
use std::alloc::{AllocError, Global};

/// The program with all its commands.
pub fn program<'a>(alloc: Global) -> Result<Command<'a>, AllocError>
    ensures { IfOk result (λ c. app_of c ≡ app) }
{
    Command::new(alloc, "zrd")
        .bin_name("zrd")?
        .about(
            "Routes what clients of Eclipse Zenoh 1.0 publish, and runs networks of such routers from scripts.",
        )
        .version("0.1.0")
        .no_binary_name(true)
        .subcommand_required(true)
        .subcommand(net(alloc)?)?
        .subcommand(serve(alloc)?)?
        .subcommand(make(alloc)?)
}

fn net<'a>(alloc: Global) -> Result<Command<'a>, AllocError>
    ensures { IfOk result (λ c. shape_of c ≡ net) }
{
    Command::new(alloc, "net")
        .about(
            "Reads a script of a network from standard input, and writes its report to standard output",
        )
        .arg(flag(
            alloc,
            "summary",
            "Writes four counts of the report in its place",
        ))?
        .arg(flag(
            alloc,
            "explain",
            "Shows a refused line, where it is wrong and why",
        ))?
        .arg(optional(
            alloc,
            "threads",
            "N",
            "On how many threads `fan` may handle routers: 1 to 16, and 1 where it is left out",
        ))
}

fn serve<'a>(alloc: Global) -> Result<Command<'a>, AllocError>
    ensures { IfOk result (λ c. shape_of c ≡ serve) }
{
    Command::new(alloc, "serve")
        .about("Runs a router over TCP")
        .arg(optional(
            alloc,
            "id",
            "ID",
            "The router's identifier: 2 to 32 lower-case hexadecimal digits, an even number, not all 0; random where it is left out",
        ))?
        .arg(wanted(
            alloc,
            "listen",
            "ADDRESS",
            "The address and port at which it listens",
        ))?
        .arg(flag(
            alloc,
            "log",
            "Tells each link that comes up or ends on standard error",
        ))?
        .arg(flag(
            alloc,
            "rules",
            "Reads from standard input what each client may do, before it listens",
        ))?
        .arg(flag(
            alloc,
            "explain",
            "With --rules, shows a faulty line, where it is wrong and what is expected",
        ))?
        .arg(flag(
            alloc,
            "admin",
            "Answers queries for its links, records, parents and sources on `@/ID/router/**`",
        ))?
        .arg(words_beside(
            alloc,
            "dial",
            "DIAL",
            "The address and port of a router with which it links; the weight of the link may follow, 1 to 65535: ADDRESS,W",
        ))
}

fn make<'a>(alloc: Global) -> Result<Command<'a>, AllocError>
    ensures { IfOk result (λ c. shape_of c ≡ make) }
{
    Command::new(alloc, "make")
        .about(
            "Writes a script to standard output that is made from a number: the same one each time",
        )
        .arg(wanted(alloc, "number", "N", "Any number of 64 bits"))?
        .arg(wanted(alloc, "routers", "R", "1 to 64 routers"))?
        .arg(wanted(alloc, "clients", "C", "0 to 1024 clients"))?
        .arg(wanted(
            alloc,
            "messages",
            "M",
            "0 to 2000 samples, and 0 where there are no clients",
        ))
}

// An option without a value.
fn flag<'a>(alloc: Global, name: &'a str, help: &'a str) -> Arg<'a>
    ensures rule { rule_of result ≡ flag name.entry.now }
    ensures local { result.global ≡ false }
{
    Arg::new(alloc, name)
        .long(name)
        .action(ArgAction::SetTrue)
        .help(help)
}

// An option with a value, which has to stand.
fn wanted<'a>(alloc: Global, name: &'a str, value: &'a str, help: &'a str) -> Arg<'a>
    ensures rule { rule_of result ≡ wanted name.entry.now }
    ensures local { result.global ≡ false }
{
    Arg::new(alloc, name)
        .long(name)
        .action(ArgAction::Set)
        .value_name(value)
        .required(true)
        .help(help)
}

// An option with a value, which may stand.
fn optional<'a>(alloc: Global, name: &'a str, value: &'a str, help: &'a str) -> Arg<'a>
    ensures rule { rule_of result ≡ optional name.entry.now }
    ensures local { result.global ≡ false }
{
    Arg::new(alloc, name)
        .long(name)
        .action(ArgAction::Set)
        .value_name(value)
        .help(help)
}

// The words that are no options.
fn words_beside<'a>(alloc: Global, name: &'a str, value: &'a str, help: &'a str) -> Arg<'a>
    ensures rule { rule_of result ≡ words_beside name.entry.now }
    ensures local { result.global ≡ false }
{
    Arg::new(alloc, name)
        .action(ArgAction::Append)
        .value_name(value)
        .help(help)
}
