//! `read_line`: what a line of a script asks, or why it is refused.

ghost use Rattle.std.specs.Prelude.{◌≡◌, ◌≤◌, ◌<◌, ◌^◌, length, true, Ok};
ghost use Rattle.zr_script_spec.specs.Lines.{most_line};
ghost use Rattle.zr_script_spec.specs.Step.{IsSaid};
ghost use Rattle.zr_script_spec.specs.Command.{command_of, by_words, by_name, by_later_name, by_last_name, is_command, is_later_command, is_last_command, is_silent, plain, asking_body, answer_body, router_line, client_line, link_line, up_line, break_line, down_line, sub_line, unsub_line, able_line, unable_line, token_line, untoken_line, interest_line, uninterest_line, put_line, del_line, get_line, reply_line, end_line, handle_line, take_line, run_line, fan_line, mark_line, show_line};
ghost use Rattle.zr_script_spec.specs.Words.{words, is_clean};
ghost use Rattle.zr_script.specs.Args.{LeadsOn, names_then, linked_then, pair_then, numbered_then, keyed_then, terms_then};
ghost use Rattle.zr_script.specs.Short.{are_short};

use crate::args::{
    first, five, four, is_there, link_weight, none, one, some_two, three, time, two,
};
use crate::body::{query_body, reply_body};
use crate::word::{
    is_clean, is_word, key, kinds, mode, number, optional_key, payload, target, zid,
};
use std::alloc::Global;
use zr_body::Body;
use zr_id::zid::Zid;
use zr_key::key::KeyExpr;
use zr_msg::content::Content;
use zr_msg::extras::Extras;
use zr_msg::msg::{Kinds, Target};
use zr_msg::peer::Weight;
use zr_script_spec::command::{Act, Command, Mode};
use zr_script_spec::error::ScriptError;

/// How many bytes a line has at most, without its end.
pub const MOST_LINE: usize = 4096;

/// The command of a line; none where the line is empty or a comment. A refusal is the first that applies: `Limit` for a line that
/// is too long, `UnknownCommand`, `BadWords`, `BadKey`.
#[tactic(auto, unfolding(zr_script_spec::specs::Command::command_of))]
pub fn read_line(alloc: Global, line: &[u8]) -> Result<Option<Command>, ScriptError>
    ensures { IsSaid result (command_of line.now) }
{
    if line.len() > MOST_LINE {
        return Err(ScriptError::Limit);
    }
    if is_silent(line) {
        return Ok(None);
    }
    let command = command(alloc, line)?;
    Ok(Some(command))
}

fn is_silent(line: &[u8]) -> bool
    ensures { result ≡ is_silent line.now }
{
    match line {
        [] => true,
        [first, ..] => *first == b'#',
    }
}

#[tactic(auto, unfolding(zr_script_spec::specs::Command::by_words))]
fn command(alloc: Global, line: &[u8]) -> Result<Command, ScriptError>
    requires { length line.now ≤ most_line }
    ensures { IsSaid result (by_words (is_clean line.now) (words line.now)) }
{
    let Some((name, args)) = first(line) else {
        return Err(ScriptError::UnknownCommand);
    };
    if !is_command(name) {
        return Err(ScriptError::UnknownCommand);
    }
    if !is_clean(line) {
        return Err(ScriptError::BadWords);
    }
    by_name(alloc, name, args)
}

fn is_command(name: &[u8]) -> bool
    ensures { result ≡ is_command name.now }
{
    is_word(name, b"router")
        || is_word(name, b"client")
        || is_word(name, b"link")
        || is_word(name, b"up")
        || is_word(name, b"break")
        || is_word(name, b"down")
        || is_later_command(name)
}

// Whether it is a command by which clients declare, or one that stands behind these.
fn is_later_command(name: &[u8]) -> bool
    ensures { result ≡ is_later_command name.now }
{
    is_word(name, b"sub")
        || is_word(name, b"unsub")
        || is_word(name, b"able")
        || is_word(name, b"full")
        || is_word(name, b"unable")
        || is_word(name, b"token")
        || is_word(name, b"untoken")
        || is_word(name, b"interest")
        || is_word(name, b"uninterest")
        || is_last_command(name)
}

// Whether it is a command that sends messages or lets them move on, or one that stands behind these.
fn is_last_command(name: &[u8]) -> bool
    ensures { result ≡ is_last_command name.now }
{
    is_word(name, b"put")
        || is_word(name, b"del")
        || is_word(name, b"get")
        || is_word(name, b"reply")
        || is_word(name, b"end")
        || is_word(name, b"handle")
        || is_word(name, b"take")
        || is_word(name, b"run")
        || is_word(name, b"fan")
        || is_word(name, b"mark")
        || is_word(name, b"show")
}

#[tactic(auto, unfolding(zr_script_spec::specs::Command::by_name))]
fn by_name(alloc: Global, name: &[u8], args: &[u8]) -> Result<Command, ScriptError>
    requires { are_short (words args.now) ≡ true }
    ensures { IsSaid result (by_name name.now (words args.now)) }
{
    if is_word(name, b"router") {
        router(args)
    } else if is_word(name, b"client") {
        client(args)
    } else if is_word(name, b"link") {
        link(args)
    } else if is_word(name, b"up") {
        up(args)
    } else if is_word(name, b"break") {
        break_link(args)
    } else if is_word(name, b"down") {
        down(args)
    } else {
        by_later_name(alloc, name, args)
    }
}

// The commands by which clients declare, and those that stand behind them.
#[tactic(auto, unfolding(zr_script_spec::specs::Command::by_later_name))]
fn by_later_name(alloc: Global, name: &[u8], args: &[u8]) -> Result<Command, ScriptError>
    requires { are_short (words args.now) ≡ true }
    ensures { IsSaid result (by_later_name name.now (words args.now)) }
{
    if is_word(name, b"sub") {
        sub(alloc, args)
    } else if is_word(name, b"unsub") {
        unsub(args)
    } else if is_word(name, b"able") {
        able(alloc, false, args)
    } else if is_word(name, b"full") {
        able(alloc, true, args)
    } else if is_word(name, b"unable") {
        unable(args)
    } else if is_word(name, b"token") {
        token(alloc, args)
    } else if is_word(name, b"untoken") {
        untoken(args)
    } else if is_word(name, b"interest") {
        interest(alloc, args)
    } else if is_word(name, b"uninterest") {
        uninterest(args)
    } else {
        by_last_name(alloc, name, args)
    }
}

// The commands that send messages or let them move on, and those that stand behind them.
#[tactic(auto, unfolding(zr_script_spec::specs::Command::by_last_name))]
fn by_last_name(alloc: Global, name: &[u8], args: &[u8]) -> Result<Command, ScriptError>
    requires { are_short (words args.now) ≡ true }
    ensures { IsSaid result (by_last_name name.now (words args.now)) }
{
    if is_word(name, b"put") {
        put(alloc, args)
    } else if is_word(name, b"del") {
        del(alloc, args)
    } else if is_word(name, b"get") {
        get(alloc, args)
    } else if is_word(name, b"reply") {
        reply(alloc, args)
    } else if is_word(name, b"end") {
        end(args)
    } else if is_word(name, b"handle") {
        handle(args)
    } else if is_word(name, b"take") {
        take(args)
    } else if is_word(name, b"run") {
        run(args)
    } else if is_word(name, b"fan") {
        fan(args)
    } else if is_word(name, b"mark") {
        mark(args)
    } else if is_word(name, b"show") {
        show(args)
    } else {
        Err(ScriptError::UnknownCommand)
    }
}

// Two words, which are names.
fn names(args: &[u8]) -> Result<(Zid, Zid), ScriptError>
    ensures { LeadsOn result (names_then (words args.now)) }
{
    let (one, other) = two(args)?;
    let one = zid(one)?;
    let other = zid(other)?;
    Ok((one, other))
}

// Two words, a name and a number.
fn numbered(args: &[u8]) -> Result<(Zid, u32), ScriptError>
    ensures { LeadsOn result (pair_then (words args.now)) }
{
    let (client, id) = two(args)?;
    numbered_words(client, id)
}

// A name and a number.
fn numbered_words(client: &[u8], id: &[u8]) -> Result<(Zid, u32), ScriptError>
    ensures { LeadsOn result (numbered_then client.now id.now) }
{
    let client = zid(client)?;
    let id = number(id)?;
    Ok((client, id))
}

// Three words, a name, a number and a key.
fn keyed(alloc: Global, args: &[u8]) -> Result<(Zid, u32, KeyExpr), ScriptError>
    ensures { LeadsOn result (keyed_then (words args.now)) }
{
    let (client, id, text) = three(args)?;
    let (client, id) = numbered_words(client, id)?;
    let key = key(alloc, text)?;
    Ok((client, id, key))
}

#[tactic(auto, unfolding(zr_script_spec::specs::Command::router_line))]
fn router(args: &[u8]) -> Result<Command, ScriptError>
    ensures { IsSaid result (router_line (words args.now)) }
{
    let id = zid(one(args)?)?;
    let act = Act::Router { id };
    Ok(Command::Act { act })
}

#[tactic(auto, unfolding(zr_script_spec::specs::Command::client_line))]
fn client(args: &[u8]) -> Result<Command, ScriptError>
    ensures { IsSaid result (client_line (words args.now)) }
{
    let (id, router) = names(args)?;
    let act = Act::Client { id, router };
    Ok(Command::Act { act })
}

// A router is never linked to itself.
#[tactic(auto, unfolding(zr_script_spec::specs::Command::link_line))]
fn link(args: &[u8]) -> Result<Command, ScriptError>
    ensures { IsSaid result (link_line (words args.now)) }
{
    let (one, other, weight) = linked(args)?;
    if one == other {
        return Err(ScriptError::BadWords);
    }
    let act = Act::Link { one, other, weight };
    Ok(Command::Act { act })
}

// Two names, and the weight of their link behind them, which is 1 where none stands there.
fn linked(args: &[u8]) -> Result<(Zid, Zid, Weight), ScriptError>
    ensures { LeadsOn result (linked_then (words args.now)) }
{
    let (one, other, behind) = some_two(args)?;
    let one = zid(one)?;
    let other = zid(other)?;
    let weight = link_weight(behind)?;
    Ok((one, other, weight))
}

#[tactic(auto, unfolding(zr_script_spec::specs::Command::up_line))]
fn up(args: &[u8]) -> Result<Command, ScriptError>
    ensures { IsSaid result (up_line (words args.now)) }
{
    let (router, neighbour) = names(args)?;
    let act = Act::Up { router, neighbour };
    Ok(Command::Act { act })
}

#[tactic(auto, unfolding(zr_script_spec::specs::Command::break_line))]
fn break_link(args: &[u8]) -> Result<Command, ScriptError>
    ensures { IsSaid result (break_line (words args.now)) }
{
    let (router, neighbour) = names(args)?;
    let act = Act::Break { router, neighbour };
    Ok(Command::Act { act })
}

#[tactic(auto, unfolding(zr_script_spec::specs::Command::down_line))]
fn down(args: &[u8]) -> Result<Command, ScriptError>
    ensures { IsSaid result (down_line (words args.now)) }
{
    let (router, neighbour) = names(args)?;
    let act = Act::Down { router, neighbour };
    Ok(Command::Act { act })
}

#[tactic(auto, unfolding(zr_script_spec::specs::Command::sub_line))]
fn sub(alloc: Global, args: &[u8]) -> Result<Command, ScriptError>
    ensures { IsSaid result (sub_line (words args.now)) }
{
    let (client, id, key) = keyed(alloc, args)?;
    let act = Act::Sub { client, id, key };
    Ok(Command::Act { act })
}

#[tactic(auto, unfolding(zr_script_spec::specs::Command::unsub_line))]
fn unsub(args: &[u8]) -> Result<Command, ScriptError>
    ensures { IsSaid result (unsub_line (words args.now)) }
{
    let (client, id) = numbered(args)?;
    let act = Act::Unsub { client, id };
    Ok(Command::Act { act })
}

#[tactic(auto, unfolding(zr_script_spec::specs::Command::able_line))]
fn able(alloc: Global, complete: bool, args: &[u8]) -> Result<Command, ScriptError>
    ensures { IsSaid result (able_line complete (words args.now)) }
{
    let (client, id, key) = keyed(alloc, args)?;
    let act = Act::Able {
        client,
        id,
        key,
        complete,
    };
    Ok(Command::Act { act })
}

#[tactic(auto, unfolding(zr_script_spec::specs::Command::unable_line))]
fn unable(args: &[u8]) -> Result<Command, ScriptError>
    ensures { IsSaid result (unable_line (words args.now)) }
{
    let (client, id) = numbered(args)?;
    let act = Act::Unable { client, id };
    Ok(Command::Act { act })
}

#[tactic(auto, unfolding(zr_script_spec::specs::Command::token_line))]
fn token(alloc: Global, args: &[u8]) -> Result<Command, ScriptError>
    ensures { IsSaid result (token_line (words args.now)) }
{
    let (client, id, key) = keyed(alloc, args)?;
    let act = Act::Token { client, id, key };
    Ok(Command::Act { act })
}

#[tactic(auto, unfolding(zr_script_spec::specs::Command::untoken_line))]
fn untoken(args: &[u8]) -> Result<Command, ScriptError>
    ensures { IsSaid result (untoken_line (words args.now)) }
{
    let (client, id) = numbered(args)?;
    let act = Act::Untoken { client, id };
    Ok(Command::Act { act })
}

#[tactic(auto, unfolding(zr_script_spec::specs::Command::interest_line))]
fn interest(alloc: Global, args: &[u8]) -> Result<Command, ScriptError>
    ensures { IsSaid result (interest_line (words args.now)) }
{
    let (client, id, mode_word, kinds_word, text, behind) = five(args)?;
    let (client, id) = numbered_words(client, id)?;
    let (mode, kinds, aggregate) = terms(mode_word, kinds_word, behind)?;
    let key = optional_key(alloc, text)?;
    let act = Act::Interest {
        client,
        id,
        mode,
        kinds,
        key,
        aggregate,
    };
    Ok(Command::Act { act })
}

// Of which declarations an interest is told, of which kinds, and whether all is told as one.
fn terms(
    mode_word: &[u8],
    kinds_word: &[u8],
    behind: &[u8],
) -> Result<(Mode, Kinds, bool), ScriptError>
    ensures { LeadsOn result (terms_then mode_word.now kinds_word.now (words behind.now)) }
{
    let mode = mode(mode_word)?;
    let kinds = kinds(kinds_word)?;
    let aggregate = is_there(behind, b"aggregate")?;
    Ok((mode, kinds, aggregate))
}

#[tactic(auto, unfolding(zr_script_spec::specs::Command::uninterest_line))]
fn uninterest(args: &[u8]) -> Result<Command, ScriptError>
    ensures { IsSaid result (uninterest_line (words args.now)) }
{
    let (client, id) = numbered(args)?;
    let act = Act::Uninterest { client, id };
    Ok(Command::Act { act })
}

#[tactic(auto, unfolding(zr_script_spec::specs::Command::put_line))]
fn put(alloc: Global, args: &[u8]) -> Result<Command, ScriptError>
    requires { are_short (words args.now) ≡ true }
    ensures { IsSaid result (put_line (words args.now)) }
{
    let (client, text, word) = three(args)?;
    let client = zid(client)?;
    let key = key(alloc, text)?;
    let body = Body::put(alloc, payload(word))?;
    publish(alloc, client, key, body)
}

#[tactic(auto, unfolding(zr_script_spec::specs::Command::del_line))]
fn del(alloc: Global, args: &[u8]) -> Result<Command, ScriptError>
    ensures { IsSaid result (del_line (words args.now)) }
{
    let (client, text) = two(args)?;
    let client = zid(client)?;
    let key = key(alloc, text)?;
    let body = Body::del(alloc)?;
    publish(alloc, client, key, body)
}

// The sample is made here as it goes through the network: neither its key nor its body is copied from here on.
fn publish(alloc: Global, client: Zid, key: KeyExpr, body: Body) -> Result<Command, ScriptError>
    ensures { IsSaid result (Ok (Command.Act (Act.Publish client (plain key body)))) }
{
    let content = Content::new(alloc, key, Extras::none(), body)?;
    let act = Act::Publish { client, content };
    Ok(Command::Act { act })
}

#[tactic(auto, unfolding(zr_script_spec::specs::Command::get_line))]
fn get(alloc: Global, args: &[u8]) -> Result<Command, ScriptError>
    ensures { IsSaid result (get_line (words args.now)) }
{
    let (client, id, text, word, behind) = four(args)?;
    let (client, number) = numbered_words(client, id)?;
    let target = target(word)?;
    let latest = is_there(behind, b"latest")?;
    let key = key(alloc, text)?;
    ask(alloc, client, number, target, latest, key)
}

fn ask(
    alloc: Global,
    client: Zid,
    number: u32,
    target: Target,
    latest: bool,
    key: KeyExpr,
) -> Result<Command, ScriptError>
    ensures { IsSaid result (Ok (Command.Act (Act.Get client number target (plain key (asking_body latest))))) }
{
    let body = query_body(alloc, latest)?;
    let content = Content::new(alloc, key, Extras::none(), body)?;
    let act = Act::Get {
        client,
        number,
        target,
        content,
    };
    Ok(Command::Act { act })
}

#[tactic(auto, unfolding(zr_script_spec::specs::Command::reply_line))]
fn reply(alloc: Global, args: &[u8]) -> Result<Command, ScriptError>
    requires { are_short (words args.now) ≡ true }
    ensures { IsSaid result (reply_line (words args.now)) }
{
    let (client, id, text, word, behind) = four(args)?;
    let (client, number) = numbered_words(client, id)?;
    let time = time(behind)?;
    let key = key(alloc, text)?;
    answer(alloc, client, number, time, key, payload(word))
}

// The time of a reply is that of its client's clock.
fn answer(
    alloc: Global,
    client: Zid,
    number: u32,
    time: Option<u32>,
    key: KeyExpr,
    payload: &[u8],
) -> Result<Command, ScriptError>
    requires { length payload.now < 2 ^ 32 }
    ensures { IsSaid result (Ok (Command.Act (Act.Reply client number (plain key (answer_body time client payload.now))))) }
{
    let body = reply_body(alloc, time, &client, payload)?;
    let content = Content::new(alloc, key, Extras::none(), body)?;
    let act = Act::Reply {
        client,
        number,
        content,
    };
    Ok(Command::Act { act })
}

#[tactic(auto, unfolding(zr_script_spec::specs::Command::end_line))]
fn end(args: &[u8]) -> Result<Command, ScriptError>
    ensures { IsSaid result (end_line (words args.now)) }
{
    let (client, number) = numbered(args)?;
    let act = Act::End { client, number };
    Ok(Command::Act { act })
}

#[tactic(auto, unfolding(zr_script_spec::specs::Command::handle_line))]
fn handle(args: &[u8]) -> Result<Command, ScriptError>
    ensures { IsSaid result (handle_line (words args.now)) }
{
    let (router, from) = names(args)?;
    let act = Act::Handle { router, from };
    Ok(Command::Act { act })
}

#[tactic(auto, unfolding(zr_script_spec::specs::Command::take_line))]
fn take(args: &[u8]) -> Result<Command, ScriptError>
    ensures { IsSaid result (take_line (words args.now)) }
{
    let (router, to) = names(args)?;
    let act = Act::Take { router, to };
    Ok(Command::Act { act })
}

#[tactic(auto, unfolding(zr_script_spec::specs::Command::run_line))]
fn run(args: &[u8]) -> Result<Command, ScriptError>
    ensures { IsSaid result (run_line (words args.now)) }
{
    let steps = number(one(args)?)?;
    Ok(Command::Run { steps })
}

#[tactic(auto, unfolding(zr_script_spec::specs::Command::fan_line))]
fn fan(args: &[u8]) -> Result<Command, ScriptError>
    ensures { IsSaid result (fan_line (words args.now)) }
{
    none(args)?;
    Ok(Command::Fan)
}

#[tactic(auto, unfolding(zr_script_spec::specs::Command::mark_line))]
fn mark(args: &[u8]) -> Result<Command, ScriptError>
    ensures { IsSaid result (mark_line (words args.now)) }
{
    none(args)?;
    Ok(Command::Act { act: Act::Mark })
}

#[tactic(auto, unfolding(zr_script_spec::specs::Command::show_line))]
fn show(args: &[u8]) -> Result<Command, ScriptError>
    ensures { IsSaid result (show_line (words args.now)) }
{
    let router = zid(one(args)?)?;
    let act = Act::Show { router };
    Ok(Command::Act { act })
}
