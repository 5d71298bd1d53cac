//! The laws of batches on a stream, over definitions alone.

ghost use Rattle.zr_frame_batch.specs.Laws.{StreamsAreCutOnce, StreamsAreJoined, WrittenBatchesAreCut};

/// Bytes are batches and less than one behind them, in one way.
pub fn streams_are_cut_once()
    ensures { StreamsAreCutOnce }
{}

/// It doesn't matter in which pieces bytes come.
pub fn streams_are_joined()
    ensures { StreamsAreJoined }
{}

/// Batches that are written one behind another are cut again.
pub fn written_batches_are_cut()
    ensures { WrittenBatchesAreCut }
{}
