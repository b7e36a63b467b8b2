ghost use Rattle.std.specs.Prelude.{◌≡◌, ◌^◌, if◌then◌else◌, Ok, Err, nat_le};
ghost use Rattle.model.specs.Bench.{with_history};
ghost use Rattle.refusal.specs.Tests.{on_ok};
ghost use Rattle.refusal.specs.declared.Refusal.TheVariants.{HistoryWidth};
ghost use Rattle.streams.specs.Stands.{stream_of};

use crate::stream::Stream;
use firm::History;
use refusal::Refusal;

impl Stream {
    // The same stream with another history of its k outcomes, or the refusal of a one in bit k or above.
    pub fn with_history(&self, history: u64) -> Result<Stream, Refusal>
        ensures { on_ok stream_of result ≡ (if nat_le (2 ^ (stream_of self.now).history.k) history then Err HistoryWidth else Ok (with_history history (stream_of self.now))) }
    {
        let m = u64::from(self.history.m());
        let k = u64::from(self.history.k());
        Ok(Stream {
            period: self.period,
            deadline: self.deadline,
            service: self.service,
            history: History::new(m, k, history)?,
        })
    }
}
