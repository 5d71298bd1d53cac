//! The words are read: `clap` takes them, and the plan is the values of its matches.

ghost use Rattle.std.specs.Prelude.{◌≡◌, ◌^◌, [], true, map, option_map, codes, unwrap_or, IfErr, IfOk, IfSome};
ghost use Rattle.std.specs.String.{string_bytes};
ghost use Rattle.clap.specs.Words.{app_of, first_of, found_of, kind_of, rows_of, subcommand_rows_of};
ghost use Rattle.zr_make.specs.Plan.{is_in_range};
ghost use Rattle.zr_top_words.specs.App.{app};
ghost use Rattle.zr_top_words.specs.Asked.{as_threads, asked_by, dials_at, dials_of, if_it_explains, is_given, made_by, made_of, make_part, net_by, net_of, net_part, number_at, serve_part, served_by, served_of, threads_of};
ghost use Rattle.zr_top_words.specs.Read.{asked_as, served_as, AreThreads, AsksNone, CanBeMade, PlansBy, PlansOf, Reads, Refuses};

use crate::commands::program;
use crate::number::{count, number};
use crate::plan::{NetPlan, Plan, ServeWords, WordsError};
use clap::error::ErrorKind;
use clap::{ArgMatches, Command, Error};
use std::alloc::{AllocError, Global};
use zr_dial::{Dial, read_dial};
use zr_id::zid::Zid;
use zr_make::MakePlan;

/// On how many threads routers are handled at most.
const MOST_THREADS: u32 = 16;

/// What the words ask for. They stand without the program's name.
pub fn read_words(alloc: Global, words: &[String]) -> Result<Plan, WordsError>
    ensures reads { Reads (map string_bytes words.now) result }
    ensures net { IfOk result (λ plan. net_part (asked_as plan) ≡ net_of (map string_bytes words.now)) }
    ensures serve { IfOk result (λ plan. serve_part (asked_as plan) ≡ served_of (map string_bytes words.now)) }
    ensures make { IfOk result (λ plan. make_part (asked_as plan) ≡ made_of (map string_bytes words.now)) }
    ensures none { IfErr result (λ error. AsksNone error (map string_bytes words.now)) }
    ensures made { IfOk result CanBeMade }
{
    read(alloc, words)
}

fn read(alloc: Global, words: &[String]) -> Result<Plan, WordsError>
    ensures reads { Reads (map string_bytes words.now) result }
    ensures made { IfOk result CanBeMade }
{
    match program(alloc) {
        Ok(program) => read_by(alloc, program, words),
        Err(_) => Err(WordsError::NoMemory),
    }
}

fn read_by<'a>(alloc: Global, program: Command<'a>, words: &'a [String]) -> Result<Plan, WordsError>
    requires { app_of program ≡ app }
    ensures reads { Reads (map string_bytes words.entry.now) result }
    ensures made { IfOk result CanBeMade }
{
    match program.try_get_matches_from(words) {
        Ok(matches) => plan_of(alloc, &matches),
        Err(error) => Err(refusal(alloc, &error)),
    }
}

// What comes of words that `clap` refuses: help and the version are what was asked for.
fn refusal(alloc: Global, error: &Error) -> WordsError
    ensures { Refuses (kind_of error.now) result }
{
    match error.kind() {
        ErrorKind::OutOfMemory => WordsError::NoMemory,
        ErrorKind::DisplayHelp | ErrorKind::DisplayVersion => match error.to_string(alloc) {
            Ok(text) => WordsError::Told(text),
            Err(_) => WordsError::NoMemory,
        },
        _ => WordsError::Wrong,
    }
}

pub(crate) fn plan_of(alloc: Global, matches: &ArgMatches<'_>) -> Result<Plan, WordsError>
    ensures plan { PlansBy (subcommand_rows_of matches.now) result }
    ensures made { IfOk result CanBeMade }
{
    match matches.subcommand() {
        Some(entered) => plan_by(alloc, entered.0, entered.1),
        None => Err(WordsError::Wrong),
    }
}

fn plan_by(alloc: Global, name: &str, options: &ArgMatches<'_>) -> Result<Plan, WordsError>
    ensures plan { PlansOf (asked_by (name.now, rows_of (found_of options.now))) result }
    ensures made { IfOk result CanBeMade }
{
    if name == "net" {
        match net_by(options) {
            Some(plan) => Ok(Plan::Net(plan)),
            None => Err(WordsError::Wrong),
        }
    } else if name == "serve" {
        match serve_by(alloc, options) {
            Ok(Some(plan)) => Ok(Plan::Serve(plan)),
            Ok(None) => Err(WordsError::Wrong),
            Err(_) => Err(WordsError::NoMemory),
        }
    } else if name == "make" {
        match made_by(options) {
            Some(plan) => Ok(Plan::Make(plan)),
            None => Err(WordsError::Wrong),
        }
    } else {
        Err(WordsError::Wrong)
    }
}

fn net_by(options: &ArgMatches<'_>) -> Option<NetPlan>
    ensures plan { result ≡ net_by (rows_of (found_of options.now)) }
    ensures range { IfSome result (λ plan. AreThreads plan.threads) }
{
    Some(NetPlan {
        summary: is_given(options, "summary"),
        explain: is_given(options, "explain"),
        threads: threads_at(options)?,
    })
}

// On how many threads routers are handled: one where the words don't say it.
fn threads_at(options: &ArgMatches<'_>) -> Option<u32>
    ensures number { result ≡ threads_of (first_of (codes "threads") (rows_of (found_of options.now))) }
    ensures range { IfSome result AreThreads }
{
    match text_of(options, "threads") {
        None => Some(1),
        Some(text) => threads(text.as_bytes()),
    }
}

fn threads(word: &[u8]) -> Option<u32>
    ensures number { result ≡ threads_of (Some word.now) }
    ensures range { IfSome result AreThreads }
{
    match count(word) {
        Some(number) => as_threads(number),
        None => None,
    }
}

fn as_threads(number: u32) -> Option<u32>
    ensures number { result ≡ as_threads number }
    ensures range { IfSome result AreThreads }
{
    if number >= 1 && number <= MOST_THREADS {
        Some(number)
    } else {
        None
    }
}

#[tactic(auto, using(crate::proofs::Rows::served_is, crate::proofs::Rows::not_listening, crate::proofs::Rows::not_named))]
fn serve_by(alloc: Global, options: &ArgMatches<'_>) -> Result<Option<ServeWords>, AllocError>
    ensures { IfOk result (λ plan. option_map served_as plan ≡ served_by (rows_of (found_of options.now))) }
{
    let Some(listen) = text_of(options, "listen") else {
        return Ok(None);
    };
    let Some(id) = text_of(options, "id") else {
        return Ok(None);
    };
    let Ok(id) = Zid::from_text(id) else {
        return Ok(None);
    };
    let Some(dials) = dials_at(alloc, options)? else {
        return Ok(None);
    };
    Ok(if_it_explains(ServeWords {
        id,
        listen: String::from_str(alloc, listen)?,
        dials,
        log: is_given(options, "log"),
        rules: is_given(options, "rules"),
        explain: is_given(options, "explain"),
        admin: is_given(options, "admin"),
    }))
}

// What `serve` asks for, unless it is to explain rules that it doesn't read.
fn if_it_explains(words: ServeWords) -> Option<ServeWords>
    ensures { option_map served_as result ≡ if_it_explains (served_as words) }
{
    if words.explain && !words.rules {
        return None;
    }
    Some(words)
}

fn made_by(options: &ArgMatches<'_>) -> Option<MakePlan>
    ensures plan { result ≡ made_by (rows_of (found_of options.now)) }
    ensures range { IfSome result (λ plan. is_in_range plan.routers plan.clients plan.messages ≡ true) }
{
    let plan = MakePlan {
        number: number_at(options, "number")?,
        routers: count_at(options, "routers")?,
        clients: count_at(options, "clients")?,
        messages: count_at(options, "messages")?,
    };
    if plan.is_in_range() { Some(plan) } else { None }
}

// The first value of an option, as text.
fn text_of<'a>(options: &ArgMatches<'a>, name: &str) -> Option<&'a str>
    ensures { option_map (λ s. s.now) result ≡ first_of name.now (rows_of (found_of options.now)) }
{
    options.get_str(name)
}

/// Whether an option without a value stands: `clap` gives it a text, which is `true` where it does.
pub(crate) fn is_given(options: &ArgMatches<'_>, name: &str) -> bool
    ensures { result ≡ is_given name.now (rows_of (found_of options.now)) }
{
    match text_of(options, name) {
        Some(text) => text == "true",
        None => false,
    }
}

fn number_at(options: &ArgMatches<'_>, name: &str) -> Option<u64>
    ensures { result ≡ number_at (2 ^ 64) name.now (rows_of (found_of options.now)) }
{
    match text_of(options, name) {
        Some(text) => number(text.as_bytes()),
        None => None,
    }
}

fn count_at(options: &ArgMatches<'_>, name: &str) -> Option<u32>
    ensures { result ≡ number_at (2 ^ 32) name.now (rows_of (found_of options.now)) }
{
    match text_of(options, name) {
        Some(text) => count(text.as_bytes()),
        None => None,
    }
}

// What the words that are no options ask to be dialled; none where one of them asks for nothing.
fn dials_at(alloc: Global, options: &ArgMatches<'_>) -> Result<Option<Vec<Dial>>, AllocError>
    ensures { IfOk result (λ dials. option_map (λ v. v.items) dials ≡ dials_at (rows_of (found_of options.now))) }
{
    match options.get_raw("dial") {
        Some(words) => read_dials(alloc, words),
        None => Ok(Some(Vec::new(alloc))),
    }
}

fn read_dials(alloc: Global, words: &[&str]) -> Result<Option<Vec<Dial>>, AllocError>
    ensures { IfOk result (λ dials. option_map (λ v. v.items) dials ≡ dials_of (map (λ s. s.now) words.now)) }
{
    let mut dials = Vec::new(alloc);
    for word in words {
        match read_dial(alloc, word)? {
            Some(dial) => dials.push(dial)?,
            None => return Ok(None),
        }
    }
    Ok(Some(dials))
}
