use crate::{Numbers, Stream, Table};
use refusal::Refusal;

// Streams of period T that need m of k outcomes, in the slots from 0 on.
fn laid(streams: &[(u64, u64, u64)]) -> Result<Table, Refusal> {
    let mut table = Table::empty();
    for (slot, (period, m, k)) in streams.iter().enumerate() {
        let stream = Stream::new(Numbers {
            period: *period,
            deadline: *period,
            service: 1,
            m: *m,
            k: *k,
            history: 0,
        })?;
        table = table.with(slot as u64, stream)?;
    }
    Ok(table)
}

// P and N of that table, or the first refusal.
fn numbers(streams: &[(u64, u64, u64)]) -> Result<(u32, u32), Refusal> {
    let table = laid(streams)?;
    Ok((table.hyper_period(), table.history_count()))
}

#[test]
fn tables(rt: HostRuntime) {
    let answers = [
        (numbers(&[]), Ok((1, 1))),
        (numbers(&[(4096, 1, 1)]), Ok((4096, 1))),
        (numbers(&[(4097, 1, 1)]), Err(2)),
        (numbers(&[(4096, 1, 1), (9, 1, 1)]), Ok((36864, 1))),
        (numbers(&[(4096, 1, 1), (11, 1, 1)]), Err(22)),
        (numbers(&[(1, 1, 16), (1, 3, 5)]), Ok((1, 1048560))),
        (numbers(&[(1, 1, 16), (1, 1, 5)]), Err(23)),
        (numbers(&[(4, 2, 4), (10, 3, 4)]), Ok((20, 55))),
    ];
    for (given, wanted) in answers {
        assert_eq!(rt; given.map_err(|refusal| refusal.number()), wanted);
    }
}
