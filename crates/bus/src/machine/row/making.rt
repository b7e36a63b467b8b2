ghost use Rattle.std.specs.Prelude.{◌≡◌};
ghost use Rattle.bus.specs.Rows.{row_of};
ghost use Rattle.model.specs.Schedule.{fresh};
ghost use Rattle.streams.specs.Stands.{stream_of};

use crate::machine::row::Row;
use streams::Stream;

impl Row {
    // A stream as it starts: its own history, nothing waiting.
    pub(crate) fn fresh(stream: Stream) -> Row
        ensures { row_of result ≡ fresh (stream_of stream) }
    {
        Row {
            stream,
            history: stream.history(),
            waits: None,
        }
    }
}
