// Cutting the next record out of the file.
ghost use Rattle.std.specs.Prelude.{◌≡◌, not, is_some};
ghost use Rattle.refusal.specs.Tests.{on_ok};
ghost use Rattle.model.specs.Layout.{located, short, admitted, field_map, cut};

use crate::fields::{Field, Map};
use crate::record::{Reader, Record};
use refusal::{Fault, Layer, Refusal};

// A refusal by a layer, at a place.
pub(crate) fn at_place<A>(
    answer: Result<A, Refusal>,
    place: usize,
    layer: Layer,
) -> Result<A, Fault>
    ensures { result ≡ located place layer answer }
{
    answer.map_err(|refusal| refusal.at(place, layer))
}

// The fault of a file that ends too soon, at its length.
pub(crate) fn too_short(file: &[u8]) -> Fault
    ensures { result ≡ short file.now }
{
    Refusal::FileShort.at(file.len(), Layer::File)
}

impl<'a> Reader<'a> {
    // The tests of the next record's field map: an unknown field, a first record without the period.
    fn admit(&self, map: Map) -> Result<Map, Refusal>
        ensures { on_ok (λ m. m.0) result ≡ admitted map.0 (not (is_some self.now.before)) }
    {
        if map.has(6) || map.has(7) {
            return Err(Refusal::FieldUnknown);
        }
        if self.before.is_none() && !map.holds(Field::Period) {
            return Err(Refusal::PeriodMissing);
        }
        Ok(map)
    }

    // The field map of the next record, tested.
    fn field_map(&self) -> Result<Map, Fault>
        ensures { on_ok (λ m. m.0) result ≡ field_map self.now.file.now self.now.at (not (is_some self.now.before)) }
    {
        let byte = self.file.get(self.at).ok_or(too_short(self.file))?;
        at_place(self.admit(Map(*byte)), self.at, Layer::File)
    }

    // The next record, or the first fault of its layout.
    pub(crate) fn record(&self) -> Result<Record<'a>, Fault>
        ensures { on_ok (λ x. x.bytes.now) result ≡ cut self.now.file.now self.now.at (not (is_some self.now.before)) }
    {
        let map = self.field_map()?;
        let bytes = self.file[self.at..]
            .get(..map.record_len())
            .ok_or(too_short(self.file))?;
        Ok(Record { bytes })
    }
}
