//! Interests of clients at a router.

ghost use Rattle.std.specs.Prelude.{◌≡◌, ◌==◌, true, List, None, OnOk, OnErr};
ghost use Rattle.std.specs.Option.{option_map, option_map_or};
ghost use Rattle.zr_local.specs.Clients.{noted};
ghost use Rattle.zr_local.specs.State.{refuses_interest};
ghost use Rattle.zr_node_spec.specs.State.{local_state};
ghost use Rattle.zr_node_spec.specs.Table.{live, local_error, with_clients};
ghost use Rattle.zr_node.specs.Answer.{IsJudged};
ghost use Rattle.zr_node.specs.Done.{IsDone};
ghost use Rattle.zr_node.specs.Steps.{interest_part};

use super::Node;
use crate::asked::answer;
use crate::failure::{NodeFailure, lacking};
use crate::interests::live;
use std::alloc::{AllocError, Global};
use zr_id::link::LinkNo;
use zr_key::key::KeyExpr;
use zr_local::interest::Interest;
use zr_msg::msg::{Kinds, Msg};

impl Node {
    // The client of a link has an interest under an id: one in what is declared later is live from now on, and any other ends the one
    // that was live under the id.
    pub(super) fn interest(
        &mut self,
        alloc: Global,
        link: LinkNo,
        future: bool,
        id: u32,
        kinds: Kinds,
        key: &Option<KeyExpr>,
        aggregate: bool,
    ) -> Result<(), NodeFailure>
        ensures { (said : List (LinkNo × Msg)) → IsDone (interest_part self.old link.0 id (live future (record { id = id; kinds = kinds; key = key.now; aggregate = aggregate }))) result self.new said said }
    {
        if !self.leads_to_client(link) {
            return Ok(());
        }
        match live(alloc, future, id, kinds, key, aggregate) {
            Ok(interest) => self.note(link, id, interest),
            Err(AllocError) => Err(lacking(self.refuses_noted(link, id, future, key))),
        }
    }

    // The client's interest of an id ends, if it has one.
    pub(super) fn end_interest(&mut self, link: LinkNo, id: u32) -> Result<(), NodeFailure>
        ensures { (said : List (LinkNo × Msg)) → IsDone (interest_part self.old link.0 id None) result self.new said said }
    {
        if !self.leads_to_client(link) {
            return Ok(());
        }
        self.note(link, id, None)
    }

    // The interest is live under its id from now on, or none is.
    fn note(&mut self, link: LinkNo, id: u32, interest: Option<Interest>) -> Result<(), NodeFailure>
        requires { option_map_or (λ i. i.id == id) interest true ≡ true }
        ensures state { OnOk result (self.new ≡ with_clients self.old (noted self.old.clients link id interest)) }
        ensures refused { IsJudged (option_map (λ e. local_error id e) (refuses_interest (local_state self.old) link id interest)) result }
        ensures unchanged { OnErr result (self.new ≡ self.old) }
    {
        answer(id, self.local.interest(link, id, interest))
    }
}
