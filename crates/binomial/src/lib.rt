// The binomial coefficients of rows 0 to 16 as a table, and how many numbers of k bits have at least m ones.
#![tactic(auto)]

ghost use Rattle.std.specs.Prelude.{◌≡◌, if◌then◌else◌, Some, None, nat_lt};
ghost use Rattle.binomial.specs.Choose.{choose, at_least, SumsCount};
ghost use Rattle.binomial.specs.Pascal.{Pascal};

// One row of the table: at place j the coefficient (n over j), 0 past the diagonal.
pub struct Row {
    pub entries: [u32; 17],
}

#[rattlefmt::skip]
static ROWS: [Row; 17] = [
    Row { entries: [1, 0, 0, 0, 0, 0, 0, 0, 0, 0, 0, 0, 0, 0, 0, 0, 0] },
    Row { entries: [1, 1, 0, 0, 0, 0, 0, 0, 0, 0, 0, 0, 0, 0, 0, 0, 0] },
    Row { entries: [1, 2, 1, 0, 0, 0, 0, 0, 0, 0, 0, 0, 0, 0, 0, 0, 0] },
    Row { entries: [1, 3, 3, 1, 0, 0, 0, 0, 0, 0, 0, 0, 0, 0, 0, 0, 0] },
    Row { entries: [1, 4, 6, 4, 1, 0, 0, 0, 0, 0, 0, 0, 0, 0, 0, 0, 0] },
    Row { entries: [1, 5, 10, 10, 5, 1, 0, 0, 0, 0, 0, 0, 0, 0, 0, 0, 0] },
    Row { entries: [1, 6, 15, 20, 15, 6, 1, 0, 0, 0, 0, 0, 0, 0, 0, 0, 0] },
    Row { entries: [1, 7, 21, 35, 35, 21, 7, 1, 0, 0, 0, 0, 0, 0, 0, 0, 0] },
    Row { entries: [1, 8, 28, 56, 70, 56, 28, 8, 1, 0, 0, 0, 0, 0, 0, 0, 0] },
    Row { entries: [1, 9, 36, 84, 126, 126, 84, 36, 9, 1, 0, 0, 0, 0, 0, 0, 0] },
    Row { entries: [1, 10, 45, 120, 210, 252, 210, 120, 45, 10, 1, 0, 0, 0, 0, 0, 0] },
    Row { entries: [1, 11, 55, 165, 330, 462, 462, 330, 165, 55, 11, 1, 0, 0, 0, 0, 0] },
    Row { entries: [1, 12, 66, 220, 495, 792, 924, 792, 495, 220, 66, 12, 1, 0, 0, 0, 0] },
    Row { entries: [1, 13, 78, 286, 715, 1287, 1716, 1716, 1287, 715, 286, 78, 13, 1, 0, 0, 0] },
    Row { entries: [1, 14, 91, 364, 1001, 2002, 3003, 3432, 3003, 2002, 1001, 364, 91, 14, 1, 0, 0] },
    Row { entries: [1, 15, 105, 455, 1365, 3003, 5005, 6435, 6435, 5005, 3003, 1365, 455, 105, 15, 1, 0] },
    Row { entries: [1, 16, 120, 560, 1820, 4368, 8008, 11440, 12870, 11440, 8008, 4368, 1820, 560, 120, 16, 1] },
];

// The whole table. Pascal's rule stands at each of its entries.
pub fn table() -> &'static [Row; 17]
    ensures { Pascal result.now }
{
    &ROWS
}

// (n over j), or nothing where the table has no row n; past the last place of a row there are only zeros.
pub fn binomial(n: u64, j: u64) -> Option<u32>
    ensures { result ≡ (if nat_lt 16 n then None else Some (choose n j)) }
{
    let row = table().get(n as usize)?;
    Some(row.entries.get(j as usize).copied().unwrap_or(0))
}

// How many numbers of k bits have at least m ones, that is the sum of (k over j) for j from m to k,
// or nothing where the table has no row k.
pub fn at_least(k: u64, m: u64) -> Option<u32>
    ensures sum { result ≡ (if nat_lt 16 k then None else Some (at_least k m)) }
    ensures counted { SumsCount }
{
    let row = table().get(k as usize)?;
    // A part of the row and not `skip`, which goes over the places that it leaves out; there is none where m lies past k.
    let terms = row.entries.get(m as usize..k as usize + 1).unwrap_or(&[]);
    Some(terms.iter().sum())
}

#[cfg(test)]
mod tests {
    use super::*;

    #[test]
    fn examples(rt: HostRuntime) {
        let answers = [
            (binomial(16, 8), Some(12870)),
            (binomial(17, 0), None),
            (binomial(3, 5), Some(0)),
            (at_least(4, 2), Some(11)),
            (at_least(4, 3), Some(5)),
            (at_least(5, 1), Some(31)),
            (at_least(5, 3), Some(16)),
            (at_least(16, 1), Some(65535)),
            (at_least(17, 1), None),
        ];
        for (given, wanted) in answers {
            assert_eq!(rt; given, wanted);
        }
    }
}
