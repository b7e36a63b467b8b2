ghost use Rattle.std.specs.Prelude.{◌≡◌, ◌%◌, ◌^◌, ◌≤◌, ◌==◌};
ghost use Rattle.bus.specs.Rows.{row_of};
ghost use Rattle.model.specs.Machine.{due, hopeless};

use crate::machine::row::Row;

impl Row {
    // Whether a frame is released at an instant: the period divides it.
    pub(super) fn is_released(&self, instant: u64) -> bool
        ensures { result ≡ (instant % self.now.stream.period == 0) }
    {
        instant % u64::from(self.stream.period()) == 0
    }

    // The instant at which a frame of the stream is due. Frames are counted from 1, and the first is released at 0.
    pub(super) fn due(&self, frame: u64) -> u64
        requires { frame ≤ 2 ^ 42 }
        ensures { result ≡ due (row_of self.now).stream frame }
    {
        let born = frame.saturating_sub(1) * u64::from(self.stream.period());
        born + u64::from(self.stream.deadline())
    }

    // Whether it cannot be sent by then from an instant on.
    pub(super) fn is_hopeless(&self, frame: u64, instant: u64) -> bool
        requires { frame ≤ 2 ^ 42 }
        ensures { result ≡ hopeless instant (row_of self.now).stream frame }
    {
        self.due(frame) - u64::from(self.stream.service()) < instant
    }
}
