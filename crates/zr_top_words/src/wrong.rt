//! What is wrong with words that the program doesn't take, in plain words.

use crate::commands::program;
use crate::number::{count, number};
use crate::plan::WordsError;
use crate::reading::{is_given, plan_of};
use clap::error::ErrorKind;
use clap::{ArgMatches, Error};
use std::alloc::{AllocError, Global};
use zr_dial::read_dial;
use zr_id::zid::Zid;
use zr_make::MakePlan;

/// What is wrong with the words, a line for each fault; nothing where the program takes them.
pub fn what_is_wrong(alloc: Global, words: &[String]) -> Result<String, AllocError> {
    match program(alloc)?.try_get_matches_from(words) {
        Ok(matches) => match plan_of(alloc, &matches) {
            Err(WordsError::Wrong) => out_of_range(alloc, &matches),
            _ => Ok(String::new(alloc)),
        },
        Err(error) => refused(alloc, &error),
    }
}

// Why `clap` refuses the words. Its error has a kind and a text, from which the names are taken.
fn refused(alloc: Global, error: &Error) -> Result<String, AllocError> {
    let whole = error.to_string(alloc)?;
    let text = whole.as_str();
    match error.kind() {
        ErrorKind::UnknownArgument => unknown_word(alloc, text),
        ErrorKind::InvalidSubcommand => unknown_command(alloc, text),
        ErrorKind::MissingSubcommand => {
            let commands = between(text, "[subcommands: ", "]");
            format!(in alloc; "a command is wanted: {commands}\n")
        }
        ErrorKind::InvalidValue => {
            let option = name_of(between(text, "required for '", "'"));
            let value = value_of(option);
            format!(in alloc; "{option} wants {value}\n")
        }
        ErrorKind::TooManyValues => {
            let option = name_of(between(text, "' for '", "'"));
            format!(in alloc; "{option} wants no value\n")
        }
        ErrorKind::ArgumentConflict => {
            let option = name_of(between(text, "the argument '", "'"));
            format!(in alloc; "{option} stands twice\n")
        }
        ErrorKind::MissingRequiredArgument => missing(alloc, text),
        _ => Ok(String::new(alloc)),
    }
}

fn unknown_word(alloc: Global, text: &str) -> Result<String, AllocError> {
    let word = between(text, "unexpected argument '", "' found");
    let what = if word.starts_with('-') {
        "option"
    } else {
        "word"
    };
    let similar = between(text, "argument exists: '", "'");
    let elsewhere = between(text, "\n  tip: '", "' exists");
    if !similar.is_empty() {
        format!(in alloc; "unknown {what} {word}: did you mean {similar}?\n")
    } else if !elsewhere.is_empty() {
        format!(in alloc; "unknown {what} {word}: did you mean {elsewhere}?\n")
    } else {
        format!(in alloc; "unknown {what} {word}\n")
    }
}

fn unknown_command(alloc: Global, text: &str) -> Result<String, AllocError> {
    let word = between(text, "unrecognized subcommand '", "'");
    let similar = between(text, "subcommand exists: '", "'");
    if similar.is_empty() {
        format!(in alloc; "unknown command {word}\n")
    } else {
        format!(in alloc; "unknown command {word}: did you mean {similar}?\n")
    }
}

// The options that are missing stand a line each, behind the first.
fn missing(alloc: Global, text: &str) -> Result<String, AllocError> {
    let mut told = String::new(alloc);
    for line in between(text, "were not provided:\n", "\n\n").lines() {
        put_missing(name_of(line.trim()), &mut told)?;
    }
    Ok(told)
}

fn put_missing(option: &str, told: &mut String) -> Result<(), AllocError> {
    let value = value_of(option);
    write!(told, "{option} is missing: it wants {value}\n")
}

// The options whose values are out of range, or whose value `clap` lets be left out and the plan wants.
fn out_of_range(alloc: Global, matches: &ArgMatches<'_>) -> Result<String, AllocError> {
    let mut told = String::new(alloc);
    let Some((command, options)) = matches.subcommand() else {
        return Ok(told);
    };
    if command == "serve" && options.get_str("id").is_none() {
        put_missing("--id", &mut told)?;
    }
    if command == "serve" && is_given(options, "explain") && !is_given(options, "rules") {
        told.push_str("--explain wants --rules\n")?;
    }
    for option in [
        "--threads",
        "--id",
        "--number",
        "--routers",
        "--clients",
        "--messages",
    ] {
        if let Some(text) = options.get_str(option.trim_start_matches('-')) {
            if !is_in_range(option, text) {
                let value = value_of(option);
                write!(told, "{option} wants {value}: {text:?} is none\n")?;
            }
        }
    }
    for word in options.get_raw("dial").unwrap_or(&[]) {
        if !is_dial(alloc, word)? {
            write!(
                told,
                "a DIAL is an address, or an address, a comma and a weight from 1 to 65535: {word:?} is none\n"
            )?;
        }
    }
    if told.is_empty() {
        told.push_str("--messages wants 0 where --clients is 0\n")?;
    }
    Ok(told)
}

fn is_dial(alloc: Global, word: &str) -> Result<bool, AllocError> {
    match read_dial(alloc, word)? {
        Some(_) => Ok(true),
        None => Ok(false),
    }
}

// Whether the value of an option is in range, whatever the others are.
fn is_in_range(option: &str, text: &str) -> bool {
    match option {
        "--threads" => matches!(count(text.as_bytes()), Some(1..=16)),
        "--id" => Zid::from_text(text).is_ok(),
        "--number" => number(text.as_bytes()).is_some(),
        "--routers" => can_be_made(count(text.as_bytes()), Some(0), Some(0)),
        "--clients" => can_be_made(Some(1), count(text.as_bytes()), Some(0)),
        "--messages" => can_be_made(Some(1), Some(1), count(text.as_bytes())),
        _ => true,
    }
}

fn can_be_made(routers: Option<u32>, clients: Option<u32>, messages: Option<u32>) -> bool {
    match (routers, clients, messages) {
        (Some(routers), Some(clients), Some(messages)) => MakePlan {
            number: 0,
            routers,
            clients,
            messages,
        }
        .is_in_range(),
        _ => false,
    }
}

// What an option wants, as `--listen` wants an address.
fn value_of(option: &str) -> &'static str {
    match option {
        "--id" => {
            "an identifier (2 to 32 lower-case hexadecimal digits, an even number, not all 0)"
        },
        "--listen" => "an address",
        "--threads" => "a number from 1 to 16",
        "--number" => "a number of 64 bits",
        "--routers" => "a number from 1 to 64",
        "--clients" => "a number from 0 to 1024",
        "--messages" => "a number from 0 to 2000",
        _ => "a value",
    }
}

// An option without the name of its value, as `--id` of `--id <ID>`.
fn name_of(option: &str) -> &str {
    match option.split_once(' ') {
        Some((name, _)) => name,
        None => option,
    }
}

// What stands between two texts, or nothing where the first is not there.
fn between<'t>(text: &'t str, before: &str, behind: &str) -> &'t str {
    match text.split_once(before) {
        Some((_, rest)) => match rest.split_once(behind) {
            Some((inner, _)) => inner,
            None => rest,
        },
        None => "",
    }
}
