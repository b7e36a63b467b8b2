ghost use Rattle.std.specs.Prelude.{◌≡◌};
ghost use Rattle.firm.specs.Histories.{firm};
ghost use Rattle.firm.specs.Stands.{firm_of};
ghost use Rattle.refusal.specs.Tests.{on_ok};

use crate::history::History;
use refusal::Refusal;

impl History {
    // A history by its numbers, or the first refusal: k outside 1 to 16, m outside 1 to k, a one in bit k or above.
    pub fn new(m: u64, k: u64, bits: u64) -> Result<History, Refusal>
        ensures { on_ok firm_of result ≡ firm m k bits }
    {
        if !(1..=16).contains(&k) {
            return Err(Refusal::WindowRange);
        }
        if !(1..=k).contains(&m) {
            return Err(Refusal::RequiredRange);
        }
        if bits >= 1 << k {
            return Err(Refusal::HistoryWidth);
        }
        Ok(History {
            m: m as u8,
            k: k as u8,
            bits: bits as u16,
        })
    }
}
