//! `Told`: of what the clients of a router were told.

ghost use Rattle.std.specs.Prelude.{◌≡◌, ℕ, ◌==◌, ◌∷◌, ◌++◌, true, false, [], map, if◌then◌else◌, Some, None, Err, IfOk, OnOk, OnErr};
ghost use Rattle.std.specs.BTreeMap.{insert_entry};
ghost use Rattle.std.specs.Option.{option_copied};
ghost use Rattle.std.specs.Ordering.{nat_cmp};
ghost use Rattle.std.specs.List.{flat_map, fold};
ghost use Rattle.zr_local.specs.Clients.{AreByLink};
ghost use Rattle.zr_lists.specs.Prefix.{IsPrefixBehind};
ghost use Rattle.zr_told.specs.Calls.{HasTold};
ghost use Rattle.zr_told_interested.specs.Among.{AreFound};
ghost use Rattle.zr_told.specs.Plan.{HasIds, IsPlan, PlansAscend, forgotten, ids_last, is_answered, tells_plan, told_plans};
ghost use Rattle.zr_told_spec.specs.Rows.{AreAsWantedBut, AreListed, IsAsWantedBut, IsNoted, Maps, map_on, one_lacks_ids, tells_all, told_on, most_id, sent_on, others, lacks_ids, tells_changes, told_changes, is_again, answered, once, closing, tells_interest, told_interest};
ghost use Rattle.zr_told_spec.specs.Told.{entered, undeclared, declared, declares};
ghost use Rattle.zr_told_spec.specs.Wanted.{wanted};

use crate::book::{Book, Plan, say, say_declared};
use crate::error::ToldError;
use crate::marks::wanted_places;
use crate::others::others;
use crate::plan::{LinkPlan, plan_at, plan_of};
use crate::tokens::others_for;
use crate::touched::touched_on;
use std::alloc::{AllocError, Global};
use std::collections::BTreeMap;
use std::marker::Model;
use zr_id::link::LinkNo;
use zr_local::interest::{ClientInterests, Interest};
use zr_msg::decl::Decl;
use zr_msg::msg::Msg;
use zr_node_spec::tables::TablesView;
use zr_told_spec::place::Place;

/// Of what the clients of a router were told, link by link.
#[derive(Drop)]
pub struct Told {
    books: BTreeMap<u32, Book>,
}

impl Model for Told {
    ghost use Rattle.zr_told_spec.specs.Rows.{AreFew, Maps};

    ghost Value = { Maps };

    ghost view = { λ t. t.books.entries };

    ghost invariant = { λ t. AreFew t.books.entries };
}

impl Told {
    /// No client was told anything. Cost: no allocation.
    pub fn new(alloc: Global) -> Told
        ensures { result ≡ [] }
    {
        Told {
            books: BTreeMap::new(alloc),
        }
    }

    /// The client of a link is gone, and with it what it was told.
    pub fn leave(&mut self, link: LinkNo)
        ensures { (k : ℕ) → map_on self.new k ≡ (if link.0 == k then [] else map_on self.old k) }
    {
        self.books.remove(&link.0);
    }

    /// The client of a link, which has these live interests, is told what changed of what others declare. `tables` are those after the event.
    /// Cost: a copy of what others declare.
    pub fn changed(
        &mut self,
        alloc: Global,
        tables: &TablesView,
        link: LinkNo,
        interests: &[Interest],
        out: &mut Vec<(LinkNo, Msg)>,
    ) -> Result<(), ToldError>
        ensures { HasTold (lacks_ids (others tables.now link.0) interests.now) (sent_on link (tells_changes (others tables.now link.0) interests.now (map_on self.old link.0))) (λ k. if link.0 == k then told_changes (others tables.now link.0) interests.now (map_on self.old link.0) else map_on self.old k) result self.old self.new out.old.items out.new.items }
    {
        let plan = self.plan_changes(alloc, tables, link, interests)?;
        Ok(self.tell(alloc, link, None, &plan, out)?)
    }

    /// The client of a link has a new interest, `current` where it is in what is declared now, and `future` where it is in what is declared later.
    /// `interests` are its live ones after it: the new one is among them where it is in what is declared later, and else none of its id is.
    /// `tables` are those after the event. Cost: a copy of what others declare; where the new interest is in tokens that are declared now, each
    /// of their keys is copied once more.
    pub fn interest(
        &mut self,
        alloc: Global,
        tables: &TablesView,
        link: LinkNo,
        interests: &[Interest],
        interest: &Interest,
        current: bool,
        future: bool,
        out: &mut Vec<(LinkNo, Msg)>,
    ) -> Result<(), ToldError>
        requires noted { IsNoted future interest.now interests.now }
        ensures { HasTold (lacks_ids (others tables.now link.0) interests.now) (sent_on link (tells_interest current future (others tables.now link.0) interests.now interest.now (map_on self.old link.0))) (λ k. if link.0 == k then told_interest future (others tables.now link.0) interests.now interest.now (map_on self.old link.0) else map_on self.old k) result self.old self.new out.old.items out.new.items }
    {
        let others = others_for(alloc, tables, link, interest, current)?;
        self.interest_among(
            alloc, &others, link, interests, interest, current, future, out,
        )
    }

    // As `interest`, where this is what others declare.
    fn interest_among(
        &mut self,
        alloc: Global,
        others: &[Decl],
        link: LinkNo,
        interests: &[Interest],
        interest: &Interest,
        current: bool,
        future: bool,
        out: &mut Vec<(LinkNo, Msg)>,
    ) -> Result<(), ToldError>
        ensures { HasTold (lacks_ids others.now interests.now) (sent_on link (tells_interest current future others.now interests.now interest.now (map_on self.old link.0))) (λ k. if link.0 == k then told_interest future others.now interests.now interest.now (map_on self.old link.0) else map_on self.old k) result self.old self.new out.old.items out.new.items }
    {
        let plan = self.plan(alloc, link, others, interests, answered(interest, future))?;
        self.tell(alloc, link, names(interest, current, future), &plan, out)?;
        Ok(close(alloc, link, others, interest, current, future, out)?)
    }

    /// Declarations changed at these places, and the clients are told of it, in the order of their links. `clients` have all live interests, by
    /// link, `tables` are those after the change, and `links` are those, in ascending order, of the clients with an interest that fits one of
    /// the places; others may be among them. Cost: for each client with such an interest, and each place where that is told, a search of what
    /// others declare; for the others among `links` a look at their interests, and nothing for the rest.
    pub fn changed_at(
        &mut self,
        alloc: Global,
        tables: &TablesView,
        clients: &[ClientInterests],
        places: &[Place],
        links: &[u32],
        out: &mut Vec<(LinkNo, Msg)>,
    ) -> Result<(), ToldError>
        requires by_link { AreByLink clients.now }
        requires before { AreAsWantedBut places.now tables.now clients.now self.old }
        requires found { AreFound places.now links.now clients.now }
        ensures { HasTold (one_lacks_ids tables.now clients.now) (tells_all tables.now clients.now self.old) (told_on tables.now clients.now self.old) result self.old self.new out.old.items out.new.items }
    {
        let plans = self.plans_at(alloc, tables, clients, places, links)?;
        Ok(self.tell_all(alloc, &plans, out)?)
    }

    /// All clients are told what changed of what others declare, in the order of their links. `clients` have all live interests, by link, and
    /// `tables` are those after the event. Cost: a copy of what others declare for each client; where it is known at which places they
    /// changed, `changed_at` costs less.
    pub fn changed_all(
        &mut self,
        alloc: Global,
        tables: &TablesView,
        clients: &[ClientInterests],
        out: &mut Vec<(LinkNo, Msg)>,
    ) -> Result<(), ToldError>
        requires by_link { AreByLink clients.now }
        requires listed { AreListed clients.now self.old }
        ensures { HasTold (one_lacks_ids tables.now clients.now) (tells_all tables.now clients.now self.old) (told_on tables.now clients.now self.old) result self.old self.new out.old.items out.new.items }
    {
        let plans = self.plans_all(alloc, tables, clients)?;
        Ok(self.tell_all(alloc, &plans, out)?)
    }

    // What all clients are to be told.
    fn plans_all(
        &self,
        alloc: Global,
        tables: &TablesView,
        clients: &[ClientInterests],
    ) -> Result<Vec<LinkPlan>, ToldError>
        requires by_link { AreByLink clients.now }
        requires listed { AreListed clients.now self.now }
        ensures ascend { IfOk result (λ es. PlansAscend es.items) }
        ensures last { IfOk result (λ es. ids_last self.now es.items) }
        ensures told { IfOk result (λ es. (k : ℕ) → told_plans self.now es.items k ≡ told_on tables.now clients.now self.now k) }
        ensures tells { IfOk result (λ es. flat_map (tells_plan self.now) es.items ≡ tells_all tables.now clients.now self.now) }
        ensures ids { OnOk result (one_lacks_ids tables.now clients.now ≡ false) }
        ensures worn { result ≡ Err ToldError.Worn → one_lacks_ids tables.now clients.now ≡ true }
    {
        let mut plans = Vec::new(alloc);
        for client in clients {
            let plan = self.plan_all(alloc, tables, client)?;
            put_plan(client.link, plan, &mut plans)?;
        }
        Ok(plans)
    }

    // What a client is to be told, worked out from all that others declare.
    fn plan_all(
        &self,
        alloc: Global,
        tables: &TablesView,
        client: &ClientInterests,
    ) -> Result<Plan, ToldError>
        ensures plan { IfOk result (λ p. IsPlan (λ q. false) (wanted (others tables.now client.now.link.0) client.now.interests) (map_on self.now client.now.link.0) p) }
        ensures ids { OnOk result (lacks_ids (others tables.now client.now.link.0) client.now.interests ≡ false) }
        ensures worn { result ≡ Err ToldError.Worn → lacks_ids (others tables.now client.now.link.0) client.now.interests ≡ true }
    {
        let interests = client.interests.as_slice();
        self.plan_changes(alloc, tables, client.link, interests)
    }

    // What the client of a link, which has these live interests, is to be told, worked out from all that others declare.
    fn plan_changes(
        &self,
        alloc: Global,
        tables: &TablesView,
        link: LinkNo,
        interests: &[Interest],
    ) -> Result<Plan, ToldError>
        ensures plan { IfOk result (λ p. IsPlan (λ q. false) (wanted (others tables.now link.0) interests.now) (map_on self.now link.0) p) }
        ensures ids { OnOk result (lacks_ids (others tables.now link.0) interests.now ≡ false) }
        ensures worn { result ≡ Err ToldError.Worn → lacks_ids (others tables.now link.0) interests.now ≡ true }
    {
        let others = others(alloc, tables, link)?;
        self.plan(alloc, link, &others, interests, None)
    }

    // What the clients are to be told of changes at these places. Those that may be told anything are among these links.
    fn plans_at(
        &self,
        alloc: Global,
        tables: &TablesView,
        clients: &[ClientInterests],
        places: &[Place],
        links: &[u32],
    ) -> Result<Vec<LinkPlan>, ToldError>
        requires by_link { AreByLink clients.now }
        requires before { AreAsWantedBut places.now tables.now clients.now self.now }
        requires found { AreFound places.now links.now clients.now }
        ensures ascend { IfOk result (λ es. PlansAscend es.items) }
        ensures last { IfOk result (λ es. ids_last self.now es.items) }
        ensures told { IfOk result (λ es. (k : ℕ) → told_plans self.now es.items k ≡ told_on tables.now clients.now self.now k) }
        ensures tells { IfOk result (λ es. flat_map (tells_plan self.now) es.items ≡ tells_all tables.now clients.now self.now) }
        ensures ids { OnOk result (one_lacks_ids tables.now clients.now ≡ false) }
        ensures worn { result ≡ Err ToldError.Worn → one_lacks_ids tables.now clients.now ≡ true }
    {
        // Read, so that the proof knows that the books ascend by link.
        let _count = self.books.len();
        let mut plans = Vec::new(alloc);
        for link in links {
            if let Some(client) = touched_on(places, clients, *link) {
                let plan = self.plan_at(alloc, tables, client, places)?;
                put_plan(client.link, plan, &mut plans)?;
            }
        }
        Ok(plans)
    }

    // What a client is to be told of changes at these places.
    fn plan_at(
        &self,
        alloc: Global,
        tables: &TablesView,
        client: &ClientInterests,
        places: &[Place],
    ) -> Result<Plan, ToldError>
        requires { IsAsWantedBut places.now (others tables.now client.now.link.0) client.now.interests (map_on self.now client.now.link.0) }
        ensures plan { IfOk result (λ p. IsPlan (λ q. false) (wanted (others tables.now client.now.link.0) client.now.interests) (map_on self.now client.now.link.0) p) }
        ensures ids { OnOk result (lacks_ids (others tables.now client.now.link.0) client.now.interests ≡ false) }
        ensures worn { result ≡ Err ToldError.Worn → lacks_ids (others tables.now client.now.link.0) client.now.interests ≡ true }
    {
        match self.books.get(&client.link.0) {
            Some(book) => plan_at(alloc, book, tables, client, places),
            None => plan_at(alloc, &Book::new(alloc), tables, client, places),
        }
    }

    // The clients are told that.
    fn tell_all(
        &mut self,
        alloc: Global,
        plans: &[LinkPlan],
        out: &mut Vec<(LinkNo, Msg)>,
    ) -> Result<(), AllocError>
        requires ascend { PlansAscend plans.now }
        requires last { ids_last self.old plans.now }
        ensures map { OnOk result ((k : ℕ) → map_on self.new k ≡ told_plans self.old plans.now k) }
        ensures out { OnOk result (out.new.items ≡ out.old.items ++ flat_map (tells_plan self.old) plans.now) }
        ensures err { OnErr result (IsPrefixBehind out.old.items (flat_map (tells_plan self.old) plans.now) out.new.items) }
    {
        for planned in plans {
            self.tell(alloc, planned.link, None, &planned.plan, out)?;
        }
        Ok(())
    }

    // What the client of a link is to be told.
    fn plan(
        &self,
        alloc: Global,
        link: LinkNo,
        others: &[Decl],
        interests: &[Interest],
        answered: Option<&Interest>,
    ) -> Result<Plan, ToldError>
        ensures plan { IfOk result (λ p. IsPlan (is_answered others.now (option_copied answered.entry)) (wanted others.now interests.now) (map_on self.now link.0) p) }
        ensures ids { OnOk result (lacks_ids others.now interests.now ≡ false) }
        ensures worn { result ≡ Err ToldError.Worn → lacks_ids others.now interests.now ≡ true }
    {
        match self.books.get(&link.0) {
            Some(book) => plan_of(alloc, book, others, interests, answered),
            None => plan_of(alloc, &Book::new(alloc), others, interests, answered),
        }
    }

    // It is told that.
    fn tell(
        &mut self,
        alloc: Global,
        link: LinkNo,
        interest: Option<u32>,
        plan: &Plan,
        out: &mut Vec<(LinkNo, Msg)>,
    ) -> Result<(), AllocError>
        requires { HasIds (map_on self.old link.0) plan.now }
        ensures map { OnOk result ((k : ℕ) → map_on self.new k ≡ (if link.0 == k then fold entered (forgotten (map_on self.old link.0) plan.now.gone.items) plan.now.fresh.items else map_on self.old k)) }
        ensures out { OnOk result (out.new.items ≡ out.old.items ++ sent_on link (undeclared (map_on self.old link.0) plan.now.gone.items ++ declared interest (forgotten (map_on self.old link.0) plan.now.gone.items) plan.now.fresh.items)) }
        ensures err { OnErr result (IsPrefixBehind out.old.items (sent_on link (undeclared (map_on self.old link.0) plan.now.gone.items ++ declared interest (forgotten (map_on self.old link.0) plan.now.gone.items) plan.now.fresh.items)) out.new.items) }
    {
        let mut book = self.take(alloc, link);
        book.tell(alloc, link, interest, plan, out)?;
        put_book(link, book, &mut self.books)?;
        Ok(())
    }

    // Takes out what the client of a link was told.
    fn take(&mut self, alloc: Global, link: LinkNo) -> Book
        ensures book { result ≡ map_on self.old link.0 }
        ensures rest { (k : ℕ) → map_on self.new k ≡ (if link.0 == k then [] else map_on self.old k) }
    {
        match self.books.remove(&link.0) {
            Some(book) => book,
            None => Book::new(alloc),
        }
    }
}

// What the client of a link was told is that.
fn put_book(link: LinkNo, book: Book, books: &mut BTreeMap<u32, Book>) -> Result<(), AllocError>
    ensures map { OnOk result ((k : ℕ) → map_on books.new.entries k ≡ (if link.0 == k then book else map_on books.old.entries k)) }
    ensures entries { OnOk result (books.new.entries ≡ insert_entry nat_cmp books.old.entries link.0 book) }
    ensures err { OnErr result (books.new.entries ≡ books.old.entries) }
{
    books.insert(link.0, book)?;
    Ok(())
}

fn put_plan(link: LinkNo, plan: Plan, plans: &mut Vec<LinkPlan>) -> Result<(), AllocError>
    ensures { OnOk result (plans.new.items ≡ plans.old.items ++ record { link = link; plan = plan } ∷ []) }
{
    plans.push(LinkPlan { link, plan })?;
    Ok(())
}

// The interest of which all is told, where it is in what is declared later.
fn answered(interest: &Interest, future: bool) -> Option<&Interest>
    ensures { option_copied result ≡ (if future then Some interest.now else None) }
{
    if future { Some(interest) } else { None }
}

// The interest that is named then, where it is in what is declared now too.
fn names(interest: &Interest, current: bool, future: bool) -> Option<u32>
    ensures { result ≡ (if future then answered current interest.now else None) }
{
    if future && current {
        Some(interest.id)
    } else {
        None
    }
}

// What is told once, and the end of the answer to an interest in what is declared now.
fn close(
    alloc: Global,
    link: LinkNo,
    others: &[Decl],
    interest: &Interest,
    current: bool,
    future: bool,
    out: &mut Vec<(LinkNo, Msg)>,
) -> Result<(), AllocError>
    ensures ok { OnOk result (out.new.items ≡ out.old.items ++ sent_on link (closing current future others.now interest.now)) }
    ensures err { OnErr result (IsPrefixBehind out.old.items (sent_on link (closing current future others.now interest.now)) out.new.items) }
{
    if !current {
        return Ok(());
    }
    once_if_now(alloc, link, others, interest, future, out)?;
    let end = Msg::ToldEnd {
        interest: interest.id,
    };
    say(link, end, out)
}

// What is told once of an interest in what is declared now alone.
fn once_if_now(
    alloc: Global,
    link: LinkNo,
    others: &[Decl],
    interest: &Interest,
    future: bool,
    out: &mut Vec<(LinkNo, Msg)>,
) -> Result<(), AllocError>
    ensures ok { OnOk result (out.new.items ≡ out.old.items ++ sent_on link (if future then [] else once others.now interest.now)) }
    ensures err { OnErr result (IsPrefixBehind out.old.items (sent_on link (if future then [] else once others.now interest.now)) out.new.items) }
{
    if future {
        return Ok(());
    }
    once(alloc, link, others, interest, out)
}

// Each place that the interest wants is told with number 0.
fn once(
    alloc: Global,
    link: LinkNo,
    others: &[Decl],
    interest: &Interest,
    out: &mut Vec<(LinkNo, Msg)>,
) -> Result<(), AllocError>
    ensures ok { OnOk result (out.new.items ≡ out.old.items ++ sent_on link (once others.now interest.now)) }
    ensures err { OnErr result (IsPrefixBehind out.old.items (sent_on link (once others.now interest.now)) out.new.items) }
{
    let places = wanted_places(alloc, others, interest)?;
    say_each(alloc, link, &places, interest.id, out)
}

fn say_each(
    alloc: Global,
    link: LinkNo,
    places: &[(Place, bool)],
    interest: u32,
    out: &mut Vec<(LinkNo, Msg)>,
) -> Result<(), AllocError>
    ensures ok { OnOk result (out.new.items ≡ out.old.items ++ sent_on link (map (λ w. declares 0 w.0.class w.0.key w.1 (Some interest)) places.now)) }
    ensures err { OnErr result (IsPrefixBehind out.old.items (sent_on link (map (λ w. declares 0 w.0.class w.0.key w.1 (Some interest)) places.now)) out.new.items) }
{
    for place in places {
        say_declared(alloc, link, 0, place, Some(interest), out)?;
    }
    Ok(())
}
