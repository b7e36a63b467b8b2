use crate::Laid;
use bus::{Del, Lower, Tally};
use refusal::Refusal;
use std::test::Fail;
use streams::Numbers;

// The six numbers of a stream in their order.
fn numbers([period, deadline, service, m, k, history]: [u64; 6]) -> Numbers {
    Numbers {
        period,
        deadline,
        service,
        m,
        k,
        history,
    }
}

// How many outcomes were met, missed and failures, or the number of the refusal.
fn counts(answer: Result<Tally, Refusal>) -> Result<(u64, u64, u64), u8> {
    answer
        .map(|told| (told.met, told.missed, told.failures))
        .map_err(Refusal::number)
}

#[test]
fn calls(rt: HostRuntime) {
    let mut laid = Laid::new(Lower);
    let answers = [
        (laid.fit(8, numbers([0, 0, 0, 0, 0, 0])), Err(1)),
        (laid.fit(0, numbers([4, 4, 1, 1, 1, 2])), Err(7)),
        (laid.fit(0, numbers([4, 4, 1, 1, 1, 1])), Ok(())),
        (laid.fit(0, numbers([4, 4, 1, 1, 1, 1])), Err(20)),
        (laid.pull(1), Err(21)),
        (laid.prime(0, 2), Err(7)),
        (laid.prime(0, 0), Ok(())),
    ];
    for (given, wanted) in answers {
        assert_eq!(rt; given.map_err(Refusal::number), wanted);
    }
    let mut running = laid.start();
    let told = [
        (counts(running.advance(65536)), Err(8)),
        (counts(running.advance(8)), Ok((2, 0, 0))),
        (counts(running.disturb()), Ok((0, 1, 1))),
    ];
    for (given, wanted) in told {
        assert_eq!(rt; given, wanted);
    }
    assert_eq!(rt; running.stop().pull(0).map_err(Refusal::number), Ok(()));
}

// Two streams that pass and cannot both be served: the failure that an advance tells is the first of its twenty units.
#[test]
fn first_of_an_advance(rt: HostRuntime) -> Result<(), Fail> {
    let mut laid = Laid::new(Del::default());
    laid.fit(0, numbers([4, 4, 1, 2, 4, 0b1111]))?;
    laid.fit(1, numbers([10, 10, 8, 3, 4, 0b1111]))?;
    let first = laid.start().advance(20)?.first;
    assert_eq!(rt;
        first.map(|first| (first.slot, first.frame, first.instant)),
        Some((0, 4, 16))
    );
    Ok(())
}
