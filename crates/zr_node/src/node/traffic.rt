//! Samples, requests, replies and finals at a router.

ghost use Rattle.std.specs.Prelude.{◌≡◌, ◌&&◌, None};
ghost use Rattle.zr_body.specs.Latest.{is_latest};
ghost use Rattle.zr_node_spec.specs.Tables.{leads_to_client};
ghost use Rattle.zr_node.specs.Done.{IsDone};
ghost use Rattle.zr_node.specs.Requests.{refuses_asker};
ghost use Rattle.zr_node.specs.Steps.{push_part, request_part, response_part, final_part};

use super::Node;
use crate::asking::{ask, refusal};
use crate::failure::NodeFailure;
use crate::kept::{lend, put_trees, take_trees};
use std::alloc::Global;
use zr_body::latest;
use zr_id::link::LinkNo;
use zr_id::zid::Zid;
use zr_msg::content::Content;
use zr_msg::extras::Extras;
use zr_msg::msg::{Msg, Target};
use zr_msg::shared::Shared;
use zr_pend_spec::branch::Asker;
use zr_push::push::push;
use zr_query::answering::{final_of, response};

impl Node {
    // A sample has come over a link. The routes that are remembered are those since the tables last changed.
    pub(super) fn push(
        &mut self,
        alloc: Global,
        link: LinkNo,
        tree: Option<Zid>,
        content: &Content,
        out: &mut Vec<(LinkNo, Msg)>,
    ) -> Result<(), NodeFailure>
        ensures { IsDone (push_part self.old link.0 tree content.now) result self.new out.old.items out.new.items }
    {
        let Some(from) = self.links.at(link) else {
            return Ok(());
        };
        let trees = take_trees(alloc, &mut self.trees, &self.base)?;
        let tables = lend(&self.links, &self.base, &trees, &self.local, &self.known);
        let pushed = push(
            alloc,
            &tables,
            &mut self.holders,
            &mut self.routes,
            from,
            tree,
            content,
            out,
        );
        put_trees(&mut self.trees, trees);
        Ok(pushed?)
    }

    // A request has come over a link.
    pub(super) fn request(
        &mut self,
        alloc: Global,
        link: LinkNo,
        named: Option<Zid>,
        number: u32,
        target: Target,
        content: &Content,
        out: &mut Vec<(LinkNo, Msg)>,
    ) -> Result<(), NodeFailure>
        ensures { IsDone (request_part self.old link.0 named number target content.now) result self.new out.old.items out.new.items }
    {
        let from = Asker { link, number };
        let is_client = self.leads_to_client(link);
        match refusal(&self.pending, from, is_client) {
            Some(error) => Err(NodeFailure::Refused(error)),
            None => {
                let is_latest = is_client && latest(content.body());
                self.ask(alloc, from, named, target, content, is_latest, out)
            }
        }
    }

    // A request that isn't refused for who asks goes on, or a final goes back at once. Replies are held where a client asks for the latest alone.
    fn ask(
        &mut self,
        alloc: Global,
        from: Asker,
        named: Option<Zid>,
        target: Target,
        content: &Content,
        latest: bool,
        out: &mut Vec<(LinkNo, Msg)>,
    ) -> Result<(), NodeFailure>
        requires allowed { refuses_asker self.old.pending from (leads_to_client self.old.links from.link.0) ≡ None }
        requires latest { latest ≡ (leads_to_client self.old.links from.link.0 && is_latest content.now.body) }
        ensures { IsDone (request_part self.old from.link.0 named from.number target content.now) result self.new out.old.items out.new.items }
    {
        let trees = take_trees(alloc, &mut self.trees, &self.base)?;
        let tables = lend(&self.links, &self.base, &trees, &self.local, &self.known);
        let peer = self.links.at(from.link);
        let asked = ask(
            alloc,
            &tables,
            &mut self.holders,
            &mut self.routes,
            &mut self.pending,
            from,
            peer,
            named,
            target,
            content,
            latest,
            out,
        );
        put_trees(&mut self.trees, trees);
        Ok(asked?)
    }

    // A reply has come under a number of a link.
    pub(super) fn response(
        &mut self,
        link: LinkNo,
        number: u32,
        content: &Content,
        out: &mut Vec<(LinkNo, Msg)>,
    ) -> Result<(), NodeFailure>
        ensures { IsDone (response_part self.old link.0 number content.now) result self.new out.old.items out.new.items }
    {
        Ok(response(&mut self.pending, link, number, content, out)?)
    }

    // A final has come under a number of a link.
    pub(super) fn end(
        &mut self,
        link: LinkNo,
        number: u32,
        extras: &Shared<Extras>,
        out: &mut Vec<(LinkNo, Msg)>,
    ) -> Result<(), NodeFailure>
        ensures { IsDone (final_part self.old link.0 number extras.now) result self.new out.old.items out.new.items }
    {
        Ok(final_of(&mut self.pending, link, number, extras, out)?)
    }
}
