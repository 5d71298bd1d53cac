//! The laws of packing, over definitions alone.

ghost use Rattle.zr_frame.specs.Laws.{ParcelsAreShort, PackedAreReceived};

use zr_trans::written_messages_are_read;

/// Each batch that is packed has at least one byte and at most as many as were agreed.
pub fn parcels_are_short()
    ensures { ParcelsAreShort }
{}

/// What is packed is received by the other end as exactly these messages, in order.
pub fn packed_messages_are_received()
    ensures { PackedAreReceived }
{
    written_messages_are_read();
}
