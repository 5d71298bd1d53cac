//! `Holder`: who has declared something.

use std::cmp::Ordering;
use zr_id::link::LinkNo;
use zr_id::zid::Zid;

/// Who has declared something: the client of a link of a router, or the clients of another router.
///
/// Clients come first, by the numbers of their links, and behind them other routers, by their names.
#[derive(Clone, Copy, Debug)]
pub enum Holder {
    Client(LinkNo),
    Source(Zid),
}

impl PartialEq for Holder {
    ghost use Rattle.std.specs.Cmp.{partial_equiv_from_equiv, eq_by_cmp_equiv};
    ghost use Rattle.zr_local.specs.Holders.{is_holder, holder_total};

    ghost eq = { is_holder };

    ghost laws = { partial_equiv_from_equiv (eq_by_cmp_equiv holder_total) };

    fn eq(&self, other: &Holder) -> bool {
        self.cmp(other).is_eq()
    }
}

impl Eq for Holder {
    ghost use Rattle.std.specs.Cmp.{eq_by_cmp_equiv};
    ghost use Rattle.zr_local.specs.Holders.{holder_total};

    ghost laws = { eq_by_cmp_equiv holder_total };
}

impl PartialOrd for Holder {
    ghost use Rattle.std.specs.Prelude.{Some};
    ghost use Rattle.std.specs.Cmp.{partial_order_from_total};
    ghost use Rattle.zr_local.specs.Holders.{holder_cmp, holder_total};

    ghost partial_cmp = { λ s t. Some (holder_cmp s t) };

    ghost laws = { partial_order_from_total holder_total };

    fn partial_cmp(&self, other: &Holder) -> Option<Ordering> {
        Some(self.cmp(other))
    }
}

impl Ord for Holder {
    ghost use Rattle.std.specs.Prelude.{refl};
    ghost use Rattle.zr_local.specs.Holders.{holder_cmp, holder_total};

    ghost cmp = { holder_cmp };

    ghost total = { holder_total };

    ghost matches_partial_cmp = { λ s t. refl };

    ghost matches_eq = { λ s t. refl };

    fn cmp(&self, other: &Holder) -> Ordering {
        match self {
            Holder::Client(link) => match other {
                Holder::Client(another) => link.cmp(another),
                Holder::Source(_) => Ordering::Less,
            },
            Holder::Source(name) => match other {
                Holder::Client(_) => Ordering::Greater,
                Holder::Source(another) => name.cmp(another),
            },
        }
    }
}
