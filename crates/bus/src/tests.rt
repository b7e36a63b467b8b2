use crate::bottoms::{Higher, Lower};
use crate::failure::{Failure, first_failure};
use crate::front::front_at;
use crate::keys::{Distance, Period, Restoring, SlotRank, TimeLeft};
use crate::layers::{Key, Layer};
use crate::named::*;
use crate::ranking::Ranking;
use crate::ready::ReadyFrame;
use crate::rule::Rule;
use std::process::Abort;
use std::test::Fail;
use streams::{Numbers, Stream};

// A waiting frame of a stream that needs 2 of 4, of service time 1 and due within its period, by its slot, period, time left and history.
pub(crate) type Waiting = (u8, u64, u16, u64);

// The six numbers of a stream in their order.
pub(crate) fn numbers([period, deadline, service, m, k, history]: [u64; 6]) -> Numbers {
    Numbers {
        period,
        deadline,
        service,
        m,
        k,
        history,
    }
}

fn ready((slot, period, left, history): Waiting) -> Result<ReadyFrame, Fail> {
    let stream = Stream::new(numbers([period, period, 1, 2, 4, history]))?;
    if slot > 7 || left < stream.service() || left > stream.deadline() {
        return Err(Fail::new("no waiting frame"));
    }
    Ok(ReadyFrame::waiting(slot, &stream, stream.history(), left))
}

// A way to ask whether the first of two waiting frames goes before the second under a rule.
pub(crate) trait Ask {
    fn is_first<R: Rule>(&self, rule: &R, pair: [Waiting; 2]) -> Result<bool, Fail>;
}

// The rule itself is asked.
#[derive(Clone, Copy)]
struct OfTheRule;

impl Ask for OfTheRule {
    fn is_first<R: Rule>(&self, rule: &R, [a, b]: [Waiting; 2]) -> Result<bool, Fail> {
        Ok(rule.goes_before(&ready(a)?, &ready(b)?))
    }
}

// The same by a key over each bottom: these differ on a tie.
fn over_bottoms<A: Ask, K: Key + Copy>(
    ask: &A,
    key: K,
    pair: [Waiting; 2],
) -> Result<[bool; 2], Fail> {
    Ok([
        ask.is_first(&Layer::over(key, Lower), pair)?,
        ask.is_first(&Layer::over(key, Higher::default()), pair)?,
    ])
}

pub(crate) fn by_layers<A: Ask>(ask: &A, pair: [Waiting; 2]) -> Result<[[bool; 2]; 5], Fail> {
    Ok([
        over_bottoms(ask, Distance, pair)?,
        over_bottoms(ask, Restoring, pair)?,
        over_bottoms(ask, TimeLeft, pair)?,
        over_bottoms(ask, Period, pair)?,
        over_bottoms(ask, SlotRank::new([9, 0, 255, 0, 9, 1, 1, 2]), pair)?,
    ])
}

pub(crate) fn by_named<A: Ask>(ask: &A, pair: [Waiting; 2]) -> Result<[bool; 6], Fail> {
    Ok([
        ask.is_first(&Del::new(), pair)?,
        ask.is_first(&Deh::new(), pair)?,
        ask.is_first(&Dml::new(), pair)?,
        ask.is_first(&Drel::new(), pair)?,
        ask.is_first(&El::new(), pair)?,
        ask.is_first(&Ml::new(), pair)?,
    ])
}

// Distance 1 and 3, and two of distance 0 with restoring distance 2 and 1.
const OLDEST: u64 = 0b1100;

const LATEST: u64 = 0b0011;

const NONE: u64 = 0b0000;

const ONE: u64 = 0b0001;

const FIRST: [bool; 2] = [true, true];

const SECOND: [bool; 2] = [false, false];

const TIE: [bool; 2] = [true, false];

const TIE_BACK: [bool; 2] = [false, true];

// Two waiting frames, each by its slot, period, time left and history; which of them the keys D, R, E, M and K put first; and whether
// the first goes before the second by Del, Deh, Dml, Drel, El and Ml. The last frame of all has the least time left.
pub(crate) type Pair = ([Waiting; 2], [[bool; 2]; 5], [bool; 6]);

pub(crate) fn pairs_in_order(least: u16) -> [Pair; 6] {
    [
        (
            [(0, 8, 5, OLDEST), (1, 8, 5, OLDEST)],
            [TIE, TIE, TIE, TIE, SECOND],
            [true, false, true, true, true, true],
        ),
        (
            [(4, 9, 5, OLDEST), (0, 8, 4, LATEST)],
            [FIRST, TIE_BACK, SECOND, SECOND, TIE_BACK],
            [true, true, true, true, false, false],
        ),
        (
            [(2, 9, 4, OLDEST), (1, 8, 5, OLDEST)],
            [TIE_BACK, TIE_BACK, FIRST, SECOND, SECOND],
            [true, true, false, true, true, false],
        ),
        (
            [(7, 8, 4, NONE), (2, 8, 5, ONE)],
            [TIE_BACK, SECOND, FIRST, TIE_BACK, FIRST],
            [true, true, false, false, true, false],
        ),
        (
            [(3, 8, 5, NONE), (4, 8, 5, ONE)],
            [TIE, SECOND, TIE, TIE, FIRST],
            [true, false, true, false, true, true],
        ),
        (
            [(5, 4096, 4096, LATEST), (6, 8, least, NONE)],
            [SECOND, FIRST, SECOND, SECOND, TIE],
            [false, false, false, false, false, false],
        ),
    ]
}

#[test]
fn pairs(rt: HostRuntime) -> Result<(), Fail> {
    for (pair, layers, named) in pairs_in_order(1) {
        assert_eq!(rt; by_layers(&OfTheRule, pair)?, layers);
        assert_eq!(rt; by_named(&OfTheRule, pair)?, named);
    }
    Ok(())
}

// Of three failures, each by its slot, frame and instant, the second is in the lowest slot; of none, none is.
pub(crate) fn second_is_lowest<T: Abort>(rt: &T, failures: [(u8, u64, u64); 3]) {
    let failures = failures.map(|(slot, frame, instant)| Failure {
        slot,
        frame,
        instant,
    });
    assert_eq!(rt;
        [first_failure(&failures), first_failure(&[])],
        [Some(1), None]
    );
}

#[test]
fn firsts(rt: HostRuntime) -> Result<(), Fail> {
    let frames = [
        ready((3, 8, 5, LATEST))?,
        ready((0, 8, 6, OLDEST))?,
        ready((5, 9, 2, OLDEST))?,
        ready((1, 9, 2, OLDEST))?,
    ];
    let fronts = [
        front_at(&Del::default(), &frames),
        front_at(&Deh::default(), &frames),
        front_at(&Dml::default(), &frames),
        front_at(&Lower, &[]),
    ];
    assert_eq!(rt; fronts, [Some(3), Some(2), Some(1), None]);
    second_is_lowest(&rt, [(6, 1, 40), (2, 7, 44), (4, 0, 41)]);
    Ok(())
}

// Each word names its ranking rule, and no other word names one.
#[test]
fn words(rt: HostRuntime) -> Result<(), Fail> {
    for ranking in Ranking::ALL {
        assert_eq!(rt; Ranking::named(ranking.word().as_bytes()), Some(ranking));
    }
    for text in ["", "DE", "del", "DELL", "DHE"] {
        assert_eq!(rt; Ranking::named(text.as_bytes()), None);
    }
    Ok(())
}

#[test]
fn failure_texts(rt: HostRuntime) -> Result<(), Fail> {
    let failure = Failure {
        slot: 6,
        frame: 12,
        instant: 340,
    };
    let text = failure.to_string(rt.alloc())?;
    assert_eq!(rt; text.as_str(), "slot 6 frame 12 instant 340");
    Ok(())
}
