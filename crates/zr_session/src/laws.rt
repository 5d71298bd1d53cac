//! The laws of sessions, over definitions alone.

ghost use Rattle.zr_session.specs.Laws.{BytesHaveOneCourse, NoCutMatters, PackedMessagesAreReadBack};

use zr_decl::{written_declarations_are_read, written_interests_are_read};
use zr_frame::{packed_messages_are_received, parcels_are_short};
use zr_frame_batch::written_batches_are_cut;
use zr_net::{written_names_are_read, written_net_is_read};
use zr_oam::written_oam_is_read;
use zr_wirekey::names_are_heard;

/// Bytes come to one course, whatever they are.
pub fn bytes_have_one_course()
    ensures { BytesHaveOneCourse }
{}

/// It doesn't matter in which pieces bytes come, and what is called between them.
pub fn no_cut_matters()
    ensures { NoCutMatters }
{}

/// What a peer packs is read back: exactly these messages, in order, and no end.
pub fn packed_messages_are_read_back()
    ensures { PackedMessagesAreReadBack }
{
    written_net_is_read();
    written_declarations_are_read();
    written_interests_are_read();
    written_oam_is_read();
    written_names_are_read();
    names_are_heard();
    parcels_are_short();
    packed_messages_are_received();
    written_batches_are_cut();
}
