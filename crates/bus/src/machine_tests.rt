use crate::named::Del;
use crate::tests::{Ask, Waiting, by_layers, by_named, numbers, pairs_in_order, second_is_lowest};
use crate::{Machine, Rule};
use std::process::Abort;
use std::test::Fail;
use streams::{Stream, Table};

// The machine is asked: whether the first of two streams is sent before the second in a quiet unit from the start, since then an outcome
// has entered its history. A stream is given as a waiting frame is. At instant 0 its deadline is the time left.
#[derive(Clone, Copy)]
struct OfTheMachine<'a, T: Abort>(&'a T);

impl<'a, T: Abort> Ask for OfTheMachine<'a, T> {
    fn is_first<R: Rule>(&self, rule: &R, pair: [Waiting; 2]) -> Result<bool, Fail> {
        let mut table = Table::empty();
        for (slot, period, deadline, history) in pair {
            let stream = numbers([period, u64::from(deadline), 1, 2, 4, history]);
            table = table.with(u64::from(slot), Stream::new(stream)?)?;
        }
        let mut machine = Machine::start(&table);
        assert_eq!(self.0; machine.unit(rule, false)?.met, 1);
        let [(slot, _, _, history), _] = pair;
        let stands = machine
            .history(u64::from(slot))
            .ok_or_else(|| Fail::new("no such stream"))?;
        Ok(u64::from(stands.bits()) != history)
    }
}

// The streams of the pairs of frames, the times left as deadlines: the stream is sent first whose frame goes before the other.
#[test]
fn pairs(rt: HostRuntime) -> Result<(), Fail> {
    for (pair, layers, named) in pairs_in_order(2) {
        assert_eq!(rt; by_layers(&OfTheMachine(&rt), pair)?, layers);
        assert_eq!(rt; by_named(&OfTheMachine(&rt), pair)?, named);
    }
    Ok(())
}

// Three streams over twelve units, the sixth noisy: how many frames have met, missed and failed in each, by a simulation apart from this code.
#[test]
fn twelve_units(rt: HostRuntime) -> Result<(), Fail> {
    let table = Table::empty()
        .with(1, Stream::new(numbers([4, 4, 3, 1, 2, 0b11]))?)?
        .with(4, Stream::new(numbers([2, 2, 1, 1, 2, 0b11]))?)?
        .with(6, Stream::new(numbers([4, 3, 2, 1, 3, 0b001]))?)?;
    let mut machine = Machine::start(&table);
    let told = [
        (1, 0, 0),
        (0, 1, 0),
        (0, 0, 0),
        (1, 1, 0),
        (1, 0, 0),
        (0, 1, 0),
        (0, 1, 0),
        (1, 0, 0),
        (0, 0, 0),
        (1, 2, 1),
        (1, 0, 0),
        (0, 0, 0),
    ];
    for (i, wanted) in told.iter().enumerate() {
        let tally = machine.unit(&Del::default(), i == 5)?;
        assert_eq!(rt; (tally.met, tally.missed, tally.failures), *wanted);
        if let Some(first) = tally.first {
            assert_eq!(rt; (first.slot, first.frame, first.instant), (1, 3, 10));
        }
    }
    assert_eq!(rt; (machine.now(), machine.is_idle()), (12, true));
    Ok(())
}

#[test]
fn lowest_failure(rt: HostRuntime) {
    second_is_lowest(&rt, [(6, 1, 40), (2, 7, 40), (4, 3, 40)]);
}
