use crate::history::History;
use refusal::Refusal;

// The distance and the restoring distance of a history, or its refusal.
fn distances(m: u64, k: u64, bits: u64) -> Result<(u8, u8), Refusal> {
    let history = History::new(m, k, bits)?;
    Ok((history.distance(), history.restoring_distance()))
}

// The leftmost digit of a history is its oldest outcome.
#[test]
fn worked(rt: HostRuntime) {
    let rows = [
        (3, 5, 0b11011, Ok((2, 0))),
        (3, 5, 0b10111, Ok((3, 0))),
        (2, 3, 0b101, Ok((1, 0))),
        (2, 3, 0b011, Ok((2, 0))),
        (4, 6, 0b100011, Ok((0, 2))),
        (4, 6, 0b111000, Ok((0, 4))),
        (4, 6, 0b000111, Ok((0, 1))),
        (5, 6, 0b101110, Ok((0, 2))),
        (0, 17, 1 << 17, Err(5)),
        (4, 3, 1 << 3, Err(6)),
        (3, 3, 1 << 3, Err(7)),
    ];
    for (m, k, bits, wanted) in rows {
        assert_eq!(rt;
            distances(m, k, bits).map_err(|refusal| refusal.number()),
            wanted
        );
    }
}
