ghost use Rattle.std.specs.Prelude.{◌≡◌, None, slice_index_or};
ghost use Rattle.bench.specs.Searches.{Same};
ghost use Rattle.bus.specs.Machines.{state_of};
ghost use Rattle.model.specs.Forecast.{histories_of};

use bus::Machine;

// The outcomes in the history of a slot, if it has one.
fn bits(bus: &Machine, slot: u64) -> Option<u16>
    ensures { result ≡ slice_index_or (histories_of (state_of bus.now)) slot None }
{
    bus.history(slot).map(|history| history.bits())
}

// Whether all histories of two buses agree, slot by slot.
pub(crate) fn agree(a: &Machine, b: &Machine) -> bool
    ensures { Same result (histories_of (state_of a.now)) (histories_of (state_of b.now)) }
{
    (0..8).all(|slot| bits(a, slot) == bits(b, slot))
}
