//! Samples and queries as the one broker sends them.

ghost use Rattle.std.specs.Prelude.{◌≡◌, ◌==◌, ◌&&◌, ◌++◌, not, IfOk, OnOk, filter};
ghost use Rattle.std.specs.List.{list_any};
ghost use Rattle.std.specs.Option.{option_copied, option_map};
ghost use Rattle.zr_id.specs.Zid.{is_named};
ghost use Rattle.zr_told_spec.specs.Place.{class_rank};
ghost use Rattle.zr_guarantee.specs.Broker.{asks_for, attached_by, can_answer, from, is_attached, is_for, is_line, is_line_of, is_publisher, item_for, publication, publishes, standing, standing_by, takes};
ghost use Rattle.zr_tests_judge.specs.Given.{carried_of};

use crate::same::is_same_carried;
use std::alloc::{AllocError, Global};
use std::marker::Model;
use zr_id::zid::Zid;
use zr_key::key::KeyExpr;
use zr_match::{covers, meets};
use zr_msg::content::Content;
use zr_msg::decl::Kind;
use zr_msg::msg::Target;
use zr_node_spec::kinds::{able_kind, is_complete};
use zr_script_spec::command::Act;
use zr_told_spec::place::Class;

/// What goes to all clients that are to have it.
#[derive(Drop)]
pub enum Carried<'a> {
    /// A sample.
    Sample {
        content: &'a Content,
    },
    /// A query, which is sent to each client that it asks as a request.
    Query {
        target: Target,
        content: &'a Content,
    },
}

/// A sample or a query, with the number of the line that publishes or asks it.
#[derive(Drop)]
pub struct Item<'a> {
    pub line: u64,
    pub carried: Carried<'a>,
}

impl<'a> Model for Item<'a> {
    ghost use Rattle.zr_guarantee.specs.Item.{Item};
    ghost use Rattle.zr_tests_judge.specs.Given.{carried_of};

    ghost Value = { Item };

    ghost view = { λ i. record { line = i.line; carried = carried_of i.carried } };
}

impl<'a> PartialEq for Item<'a> {
    ghost use Rattle.zr_tests_judge.specs.Same.{is_same};
    ghost use Rattle.zr_tests_judge.specs.Equal.{item_laws};

    ghost eq = { is_same };

    ghost laws = { item_laws };

    fn eq(&self, other: &Item<'a>) -> bool {
        self.line == other.line && is_same_carried(&self.carried, &other.carried)
    }
}

// What an act publishes: the client that does it, and the sample or the query.
#[derive(Drop)]
struct Publication<'a> {
    client: &'a Zid,
    carried: Carried<'a>,
}

impl<'a> Model for Publication<'a> {
    ghost use Rattle.zr_guarantee.specs.Broker.{Publication};
    ghost use Rattle.zr_tests_judge.specs.Given.{carried_of};

    ghost Value = { Publication };

    ghost view = { λ p. record { client = p.client.now; carried = carried_of p.carried } };
}

// What a client has declared under an id, and has not taken back.
#[derive(Drop)]
struct Declaration<'a> {
    id: u32,
    kind: Kind,
    key: &'a KeyExpr,
}

impl<'a> Model for Declaration<'a> {
    ghost use Rattle.zr_guarantee.specs.Broker.{Standing};

    ghost Value = { Standing };

    ghost view = { λ s. record { id = s.id; decl = record { kind = s.kind; key = s.key.now } } };
}

/// What the receiver is to have of the publisher's lines in a phase.
pub fn due<'a>(
    alloc: Global,
    before: &[(u64, Act)],
    phase: &'a [(u64, Act)],
    publisher: &Zid,
    receiver: &Zid,
) -> Result<Vec<Item<'a>>, AllocError>
    ensures { IfOk result (λ v. v.items ≡ from before.now phase.now publisher.now receiver.now) }
{
    let mut due = Vec::new(alloc);
    for x in phase {
        add_due(alloc, before, x, publisher, receiver, &mut due)?;
    }
    Ok(due)
}

/// Whether a line of the phase is a sample or a query of the publisher.
pub fn is_line_of(phase: &[(u64, Act)], publisher: &Zid, line: u64) -> bool
    ensures { result ≡ is_line_of phase.now publisher.now line }
{
    phase
        .iter()
        .any(|x| x.0 == line && is_publisher(publisher, &x.1))
}

/// Whether a line of the phase is a sample or a query.
pub fn is_line(phase: &[(u64, Act)], line: u64) -> bool
    ensures { result ≡ is_line phase.now line }
{
    phase.iter().any(|x| x.0 == line && publishes(&x.1))
}

/// The client of a sample or a query, if the act is one.
pub fn publisher(act: &Act) -> Option<&Zid>
    ensures { option_copied result ≡ option_map (λ p. p.client) (publication act.now) }
{
    match act {
        Act::Publish { client, .. } | Act::Get { client, .. } => Some(client),
        _ => None,
    }
}

fn publishes(act: &Act) -> bool
    ensures { result ≡ publishes act.now }
{
    publisher(act).is_some()
}

fn is_publisher(name: &Zid, act: &Act) -> bool
    ensures { result ≡ is_publisher name.now act.now }
{
    match publisher(act) {
        Some(client) => name == client,
        None => false,
    }
}

fn published<'a>(act: &'a Act) -> Option<Publication<'a>>
    ensures { result ≡ publication act.now }
{
    match act {
        Act::Publish { client, content } => Some(Publication {
            client,
            carried: Carried::Sample { content },
        }),
        Act::Get {
            client,
            target,
            content,
            ..
        } => Some(Publication {
            client,
            carried: Carried::Query {
                target: *target,
                content,
            },
        }),
        _ => None,
    }
}

fn add_due<'a>(
    alloc: Global,
    before: &[(u64, Act)],
    x: &'a (u64, Act),
    publisher: &Zid,
    receiver: &Zid,
    out: &mut Vec<Item<'a>>,
) -> Result<(), AllocError>
    ensures { OnOk result (out.new.items ≡ out.old.items ++ item_for before.now publisher.now receiver.now x.now.0 (publication x.now.1)) }
{
    if let Some(p) = published(&x.1) {
        if publisher == p.client && is_for(alloc, before, publisher, receiver, &p.carried)? {
            let carried = p.carried;
            out.push(Item { line: x.0, carried })?;
        }
    }
    Ok(())
}

/// Whether a sample or a query of a publisher is for a receiver: another client, attached, that takes it.
pub fn is_for(
    alloc: Global,
    before: &[(u64, Act)],
    publisher: &Zid,
    receiver: &Zid,
    carried: &Carried<'_>,
) -> Result<bool, AllocError>
    ensures { IfOk result (λ answer. answer ≡ is_for before.now publisher.now receiver.now (carried_of carried.now)) }
{
    if publisher == receiver || !is_attached(before, receiver) {
        return Ok(false);
    }
    takes(alloc, before, receiver, carried)
}

// Whether a client has declared that it takes a sample, or that it can answer a query.
fn takes(
    alloc: Global,
    before: &[(u64, Act)],
    name: &Zid,
    carried: &Carried<'_>,
) -> Result<bool, AllocError>
    ensures { IfOk result (λ answer. answer ≡ takes before.now name.now (carried_of carried.now)) }
{
    match carried {
        Carried::Sample { content } => {
            let declared = standing(alloc, before, name, Class::Subscriber)?;
            Ok(does_any_ask(declared.as_slice(), content.key()))
        }
        Carried::Query { target, content } => {
            let declared = standing(alloc, before, name, Class::Queryable)?;
            Ok(can_any_answer(declared.as_slice(), *target, content.key()))
        }
    }
}

fn is_attached(acts: &[(u64, Act)], name: &Zid) -> bool
    ensures { result ≡ is_attached acts.now name.now }
{
    let mut so_far = false;
    for x in acts {
        so_far = attached_by(name, so_far, &x.1);
    }
    so_far
}

// A client is attached from its line on until its link is broken.
fn attached_by(name: &Zid, so_far: bool, act: &Act) -> bool
    ensures { result ≡ attached_by name.now so_far act.now }
{
    match act {
        Act::Client { id, .. } => so_far || name == id,
        Act::Break { neighbour, .. } => so_far && name != neighbour,
        _ => so_far,
    }
}

// What a client has declared of a class.
fn standing<'a>(
    alloc: Global,
    acts: &'a [(u64, Act)],
    name: &Zid,
    class: Class,
) -> Result<Vec<Declaration<'a>>, AllocError>
    ensures { IfOk result (λ v. v.items ≡ standing acts.now name.now class) }
{
    let mut so_far = Vec::new(alloc);
    for x in acts {
        declare(name, class, &x.1, &mut so_far)?;
    }
    Ok(so_far)
}

// One more act is done.
fn declare<'a>(
    name: &Zid,
    class: Class,
    act: &'a Act,
    so_far: &mut Vec<Declaration<'a>>,
) -> Result<(), AllocError>
    ensures { OnOk result (so_far.new.items ≡ standing_by name.now class so_far.old.items act.now) }
{
    match act {
        Act::Sub { client, id, key } if is_own(name, class, client, Class::Subscriber) => {
            so_far.push(Declaration {
                id: *id,
                kind: Kind::Sub,
                key,
            })?;
        }
        Act::Unsub { client, id } if is_own(name, class, client, Class::Subscriber) => {
            forget(so_far, *id);
        }
        Act::Able {
            client,
            id,
            key,
            complete,
        } if is_own(name, class, client, Class::Queryable) => {
            so_far.push(Declaration {
                id: *id,
                kind: able_kind(*complete),
                key,
            })?;
        }
        Act::Unable { client, id } if is_own(name, class, client, Class::Queryable) => {
            forget(so_far, *id);
        }
        Act::Token { client, id, key } if is_own(name, class, client, Class::Living) => {
            so_far.push(Declaration {
                id: *id,
                kind: Kind::Token,
                key,
            })?;
        }
        Act::Untoken { client, id } if is_own(name, class, client, Class::Living) => {
            forget(so_far, *id);
        }
        _ => {}
    }
    Ok(())
}

// Whether a declaration of a class is the client's, and of the class that is asked for.
fn is_own(name: &Zid, class: Class, client: &Zid, of: Class) -> bool
    ensures { result ≡ (is_named name.now client.now && class_rank of == class_rank class) }
{
    name == client && is_class(of, class)
}

fn is_class(one: Class, other: Class) -> bool
    ensures { result ≡ (class_rank one == class_rank other) }
{
    match one {
        Class::Subscriber => match other {
            Class::Subscriber => true,
            Class::Queryable | Class::Living => false,
        },
        Class::Queryable => match other {
            Class::Queryable => true,
            Class::Subscriber | Class::Living => false,
        },
        Class::Living => match other {
            Class::Living => true,
            Class::Subscriber | Class::Queryable => false,
        },
    }
}

fn forget(so_far: &mut Vec<Declaration<'_>>, id: u32)
    ensures { so_far.new.items ≡ filter (λ s. not (s.id == id)) so_far.old.items }
{
    so_far.retain(|s| s.id != id);
}

fn does_any_ask(declared: &[Declaration<'_>], key: &KeyExpr) -> bool
    ensures { result ≡ list_any (λ s. asks_for key.now s.decl) declared.now }
{
    declared.iter().any(|s| asks_for(key, s))
}

fn asks_for(key: &KeyExpr, subscription: &Declaration<'_>) -> bool
    ensures { result ≡ asks_for key.now subscription.now.decl }
{
    meets(subscription.key, key)
}

fn can_any_answer(declared: &[Declaration<'_>], target: Target, key: &KeyExpr) -> bool
    ensures { result ≡ list_any (λ s. can_answer target key.now s.decl) declared.now }
{
    declared.iter().any(|s| can_answer(target, key, s))
}

fn can_answer(target: Target, key: &KeyExpr, queryable: &Declaration<'_>) -> bool
    ensures { result ≡ can_answer target key.now queryable.now.decl }
{
    match target {
        Target::Best | Target::All => meets(queryable.key, key),
        Target::Complete => is_complete(queryable.kind) && covers(queryable.key, key),
    }
}
