ghost use Rattle.std.specs.Prelude.{◌≡◌};
ghost use Rattle.model.specs.Streams.{stream};
ghost use Rattle.refusal.specs.Tests.{on_ok};
ghost use Rattle.streams.specs.Stands.{stream_of};

use crate::numbers::Numbers;
use crate::stream::Stream;
use firm::History;
use refusal::Refusal;

impl Stream {
    // A stream by its numbers, or the first refusal: the period outside 1 to 4,096, the deadline outside 1 to the period,
    // the service time outside 1 to the deadline, then the tests of a history.
    pub fn new(numbers: Numbers) -> Result<Stream, Refusal>
        ensures { on_ok stream_of result ≡ stream numbers.period numbers.deadline numbers.service numbers.m numbers.k numbers.history }
    {
        let Numbers {
            period,
            deadline,
            service,
            m,
            k,
            history,
        } = numbers;
        if !(1..=4096).contains(&period) {
            return Err(Refusal::PeriodRange);
        }
        if !(1..=period).contains(&deadline) {
            return Err(Refusal::DeadlineRange);
        }
        if !(1..=deadline).contains(&service) {
            return Err(Refusal::ServiceRange);
        }
        let history = History::new(m, k, history)?;
        Ok(Stream {
            period: period as u16,
            deadline: deadline as u16,
            service: service as u16,
            history,
        })
    }

    // The period T: the distance between two arrivals.
    pub fn period(&self) -> u16
        ensures { result ≡ self.now.period }
    {
        self.period
    }

    // The relative deadline D: how long after its arrival a frame is due.
    pub fn deadline(&self) -> u16
        ensures { result ≡ self.now.deadline }
    {
        self.deadline
    }

    // The service time C: how long a frame takes the bus.
    pub fn service(&self) -> u16
        ensures { result ≡ self.now.service }
    {
        self.service
    }

    pub fn history(&self) -> History
        ensures { result ≡ self.now.history }
    {
        self.history
    }
}
