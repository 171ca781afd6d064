// Laws of block streams, which the contracts of functions that do nothing carry. A caller whose proof needs a law calls
// its function.
ghost use Rattle.stream_model.specs.BlockLaws.{BytesAreJoined, StreamsAreShort, StreamsGrow, StreamsBegin, EndsAreCounted, StreamsStopOnce, EntriesAreOfTransfers, StreamsHaveTransfers};

/// The bytes of a whole stream, joined, are its data.
pub fn bytes_are_joined()
    ensures { BytesAreJoined }
{}

/// Data within a limit take at most as many blocks as the limit has bytes for, and one more for each transfer.
pub fn streams_are_short()
    ensures { StreamsAreShort }
{}

/// More data change no full block, and a further transfer changes no entry before it.
pub fn streams_grow()
    ensures { StreamsGrow }
{}

/// What was sealed is a beginning of the stream, however the stream goes on.
pub fn streams_begin()
    ensures { StreamsBegin }
{}

/// Law: how many transfers have ended in a stream, and whether it was given up.
pub fn ends_are_counted()
    ensures { EndsAreCounted }
{}

/// If a beginning of a stream is over, it is the whole stream.
pub fn streams_stop_once()
    ensures { StreamsStopOnce }
{}

/// An entry belongs to the transfer after those that have ended.
pub fn entries_are_of_transfers()
    ensures { EntriesAreOfTransfers }
{}

/// The bytes of a transfer in a whole stream are the data of that transfer.
pub fn streams_have_transfers()
    ensures { StreamsHaveTransfers }
{}
