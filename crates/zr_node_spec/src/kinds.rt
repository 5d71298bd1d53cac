//! The kinds of declarations.

ghost use Rattle.std.specs.Prelude.{◌≡◌};
ghost use Rattle.zr_node_spec.specs.Queries.{is_complete};
ghost use Rattle.zr_node_spec.specs.Table.{able_kind};

use zr_msg::decl::Kind;

/// The kind of a queryable.
pub fn able_kind(complete: bool) -> Kind
    ensures { result ≡ able_kind complete }
{
    if complete { Kind::Full } else { Kind::Able }
}

/// Whether a declaration is of a complete queryable.
pub fn is_complete(kind: Kind) -> bool
    ensures { result ≡ is_complete kind }
{
    match kind {
        Kind::Sub | Kind::Able | Kind::Token => false,
        Kind::Full => true,
    }
}
