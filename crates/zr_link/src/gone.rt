//! A link that isn't up any more as a message comes over it.

ghost use Rattle.std.specs.Prelude.{◌≡◌};
ghost use Rattle.zr_link.specs.Gone.{is_gone};

use zr_port::DeliverError;

/// Whether a message was refused since its link isn't up any more.
pub(crate) fn is_gone(refused: Option<DeliverError>) -> bool
    ensures { result ≡ is_gone refused }
{
    match refused {
        Some(DeliverError::NotUp { .. }) => true,
        Some(DeliverError::Misplaced { .. })
        | Some(DeliverError::Denied { .. })
        | Some(DeliverError::Ignored { .. })
        | Some(DeliverError::Node(_))
        | Some(DeliverError::Full { .. })
        | Some(DeliverError::Worn)
        | Some(DeliverError::NoMemory)
        | None => false,
    }
}
