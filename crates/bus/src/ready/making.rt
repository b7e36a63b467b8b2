ghost use Rattle.std.specs.Prelude.{◌≡◌, ◌≤◌};
ghost use Rattle.bus.specs.Stands.{ready_of};
ghost use Rattle.firm.specs.Stands.{firm_of};
ghost use Rattle.model.specs.Ready.{waiting};
ghost use Rattle.streams.specs.Stands.{stream_of};

use crate::ready::ReadyFrame;
use firm::History;
use streams::Stream;

impl ReadyFrame {
    // The waiting frame of a stream, in its slot, with its history as it stands and so much time left.
    pub(crate) fn waiting(slot: u8, stream: &Stream, history: History, left: u16) -> ReadyFrame
        requires { (slot ≤ 7) × (((stream_of stream.now).service ≤ left) × (left ≤ (stream_of stream.now).deadline)) }
        ensures { ready_of result ≡ waiting slot (stream_of stream.now) (firm_of history) left }
    {
        ReadyFrame {
            slot,
            period: stream.period(),
            deadline: stream.deadline(),
            service: stream.service(),
            history,
            left,
        }
    }
}
