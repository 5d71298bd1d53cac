//! How what was declared changes: it is taken from its place before the change, and what stands there then is put.

ghost use Rattle.std.specs.Prelude.{◌≡◌, ◌++◌, List};
ghost use Rattle.zr_local.specs.Rows.{AreInOrder, id_kind, left, undeclared};
ghost use Rattle.zr_log_set.specs.Decls.{IsSet, without_decl};
ghost use Rattle.zr_push_sought.specs.Holders.{HoldJust};
ghost use Rattle.zr_push_sought.specs.Pairs.{Declared, of_clients, of_log, of_set, of_sources};

use crate::client_rows::ClientRows;
use crate::holders::Holders;
use zr_id::link::LinkNo;
use zr_id::zid::Zid;
use zr_local::holder::Holder;
use zr_local::local::Local;
use zr_local::row::{Key, Row, place_of};
use zr_log::log::Log;
use zr_log_set::decl_set;
use zr_msg::decl::{Decl, Kind};

impl Holders {
    /// What the client of a link has declared under an id is gone, if there is anything.
    pub fn take_row(&mut self, rows: &[Row], link: LinkNo, id: u32, kind: Kind)
        requires { AreInOrder rows.now }
        ensures { (rest : List Declared) → HoldJust (of_clients rows.now ++ rest) self.old → HoldJust (of_clients (undeclared rows.now (record { link = link.0; kind = id_kind kind; id = id })) ++ rest) self.new }
    {
        if let Ok(at) = place_of(rows, Key::new(link, id, kind)) {
            let row = &rows[at];
            self.take(Holder::Client(row.link), &row.decl);
        }
    }

    /// What the client of a link has declared under an id is there, if there is anything.
    pub fn put_row(&mut self, rows: &[Row], link: LinkNo, id: u32, kind: Kind)
        requires { AreInOrder rows.now }
        ensures { (rest : List Declared) → HoldJust (of_clients (undeclared rows.now (record { link = link.0; kind = id_kind kind; id = id })) ++ rest) self.old → HoldJust (of_clients rows.now ++ rest) self.new }
    {
        if let Ok(at) = place_of(rows, Key::new(link, id, kind)) {
            let row = &rows[at];
            self.put(Holder::Client(row.link), &row.decl);
        }
    }

    /// All that the client of a link has declared is gone.
    pub fn take_client(&mut self, local: &Local, link: LinkNo)
        ensures { (rest : List Declared) → HoldJust (of_clients local.now.rows ++ rest) self.old → HoldJust (of_clients (left local.now.rows link.0) ++ rest) self.new }
    {
        let mut rows = ClientRows::of(local);
        self.take_rows(rows.on(link));
    }

    /// All that the client of a link has declared is there.
    pub fn put_client(&mut self, local: &Local, link: LinkNo)
        ensures { (rest : List Declared) → HoldJust (of_clients (left local.now.rows link.0) ++ rest) self.old → HoldJust (of_clients local.now.rows ++ rest) self.new }
    {
        let mut rows = ClientRows::of(local);
        self.put_rows(rows.on(link));
    }

    fn take_rows(&mut self, rows: &[Row])
        ensures { (rest : List Declared) → HoldJust (of_clients rows.now ++ rest) self.old → HoldJust rest self.new }
    {
        for row in rows {
            self.take(Holder::Client(row.link), &row.decl);
        }
    }

    /// What clients have declared is there.
    pub(crate) fn put_rows(&mut self, rows: &[Row])
        ensures { (rest : List Declared) → HoldJust rest self.old → HoldJust (of_clients rows.now ++ rest) self.new }
    {
        for row in rows {
            self.put(Holder::Client(row.link), &row.decl);
        }
    }

    /// A declaration of another router's clients is gone, if it is in the set of these.
    pub fn take_decl(&mut self, name: Zid, decls: &[Decl], decl: &Decl)
        requires { IsSet decls.now }
        ensures { (rest : List Declared) → HoldJust (of_set name decls.now ++ rest) self.old → HoldJust (of_set name (without_decl decls.now decl.now) ++ rest) self.new }
    {
        if let Ok(at) = decl_set::place_of(decls, decl) {
            self.take(Holder::Source(name), &decls[at]);
        }
    }

    /// A declaration of another router's clients is there, if it is in the set of these.
    pub fn put_decl(&mut self, name: Zid, decls: &[Decl], decl: &Decl)
        requires { IsSet decls.now }
        ensures { (rest : List Declared) → HoldJust (of_set name (without_decl decls.now decl.now) ++ rest) self.old → HoldJust (of_set name decls.now ++ rest) self.new }
    {
        if let Ok(at) = decl_set::place_of(decls, decl) {
            self.put(Holder::Source(name), &decls[at]);
        }
    }

    /// All declarations of another router's clients are gone.
    pub fn take_set(&mut self, name: Zid, decls: &[Decl])
        ensures { (rest : List Declared) → HoldJust (of_set name decls.now ++ rest) self.old → HoldJust rest self.new }
    {
        for decl in decls {
            self.take(Holder::Source(name), decl);
        }
    }

    /// All declarations of another router's clients are there.
    pub fn put_set(&mut self, name: Zid, decls: &[Decl])
        ensures { (rest : List Declared) → HoldJust rest self.old → HoldJust (of_set name decls.now ++ rest) self.new }
    {
        for decl in decls {
            self.put(Holder::Source(name), decl);
        }
    }

    /// What the logs of the other routers tell is there.
    pub(crate) fn put_logs(&mut self, me: Zid, logs: &[Log])
        ensures { (rest : List Declared) → HoldJust rest self.old → HoldJust (of_sources me logs.now ++ rest) self.new }
    {
        for log in logs {
            self.put_log(me, log);
        }
    }

    fn put_log(&mut self, me: Zid, log: &Log)
        ensures { (rest : List Declared) → HoldJust rest self.old → HoldJust (of_log me log.now ++ rest) self.new }
    {
        if log.source != me {
            self.put_set(log.source, log.decls.as_slice());
        }
    }
}
