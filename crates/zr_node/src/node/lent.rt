//! What a router lends to those who work out what its clients are told.

ghost use Rattle.std.specs.Prelude.{◌≡◌, IfOk};
ghost use Rattle.zr_log.specs.Known.{AreInOrder};
ghost use Rattle.zr_node_spec.specs.State.{tables};

use crate::kept::{lend, put_trees, take_trees};
use crate::node::Node;
use std::alloc::{AllocError, Global};
use zr_log::log::Log;
use zr_node_spec::tables::TablesView;
use zr_tree::trees::Trees;

impl Node {
    /// What is known of the log of each router, the own one among them, in ascending order of their routers.
    pub fn logs(&self) -> &[Log]
        ensures value { result.now ≡ self.now.known.logs }
        ensures in_order { AreInOrder self.now.known }
        ensures own { self.now.known.me ≡ self.now.base.me }
    {
        self.known.logs()
    }

    /// The trees of its records, those that it keeps or else worked out anew. They are to be given back by [`Node::put_trees`], so that they
    /// are not worked out again; where they are not, nothing else is lost.
    pub fn take_trees(&mut self, alloc: Global) -> Result<Trees, AllocError>
        ensures same { self.new ≡ self.old }
        ensures trees { IfOk result (λ t. t ≡ self.old.base.records) }
    {
        take_trees(alloc, &mut self.trees, &self.base)
    }

    /// The trees of its records are kept.
    pub fn put_trees(&mut self, trees: Trees)
        requires { trees ≡ self.old.base.records }
        ensures { self.new ≡ self.old }
    {
        put_trees(&mut self.trees, trees);
    }

    /// What it goes by, lent, with the trees of its records.
    pub fn tables<'a>(&'a self, trees: &'a Trees) -> TablesView<'a>
        requires { trees.now ≡ self.now.base.records }
        ensures { result ≡ tables self.now }
    {
        lend(&self.links, &self.base, trees, &self.local, &self.known)
    }
}
