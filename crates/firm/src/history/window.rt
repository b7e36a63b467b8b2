ghost use Rattle.std.specs.Prelude.{◌≡◌, ◌%◌, ◌^◌, count_ones};

use crate::history::History;

impl History {
    // The lowest k bits.
    pub(super) fn latest(&self, bits: u32) -> u32
        ensures { result ≡ bits % 2 ^ self.now.k }
    {
        bits & ((1 << self.k) - 1)
    }

    // How many of the lowest k bits are ones.
    pub(super) fn met_among(&self, bits: u32) -> u32
        ensures { result ≡ count_ones (bits % 2 ^ self.now.k) }
    {
        self.latest(bits).count_ones()
    }
}
