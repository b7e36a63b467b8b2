// The fields of a record, taken from the front of its bytes.
ghost use Rattle.std.specs.Prelude.{◌≡◌, ◌+◌, ◌-◌, ◌*◌, ◌^◌, ◌<◌, ◌≤◌, true, length, drop, if◌then◌else◌, slice_index};
ghost use Rattle.model.specs.Fields.{stands, size, extent, number, period, service, deadline, window, required, history};
ghost use Rattle.tablefile.specs.Bits.{bit};

use crate::record::Record;
use streams::Numbers;

// A map of a file, a bit for each thing that may stand: the slot map, or the field map of a record.
#[derive(Clone, Copy)]
pub(crate) struct Map(pub u8);

// The fields of a record, lowest first. The discriminant is the field's bit in a field map.
#[derive(Clone, Copy)]
pub(crate) enum Field {
    Period = 0,
    Service = 1,
    Deadline = 2,
    Window = 3,
    Required = 4,
    History = 5,
}

impl Field {
    // The bytes of the field: one for k and m, two for the others.
    fn size(self) -> usize
        ensures { result ≡ size (bit self) }
    {
        match self {
            Field::Window | Field::Required => 1,
            _ => 2,
        }
    }
}

impl Map {
    // Whether a bit of the map stands.
    pub(crate) fn has(self, bit: u8) -> bool
        ensures { result ≡ stands self.0 bit }
    {
        self.0.unbounded_shr(u32::from(bit)) % 2 == 1
    }

    // Whether a record with this field map has the field.
    pub(crate) fn holds(self, field: Field) -> bool
        ensures { result ≡ stands self.0 (bit field) }
    {
        self.has(field as u8)
    }

    // The bytes of a field in a record with this field map: none where its bit does not stand.
    fn held(self, field: Field) -> usize
        ensures { result ≡ (if stands self.0 (bit field) then size (bit field) else 0) }
    {
        if self.holds(field) { field.size() } else { 0 }
    }

    // The bytes of a record with this field map, the map itself among them.
    // A sum of six and not a chain: the proof of the chain did not close.
    pub(crate) fn record_len(self) -> usize
        ensures { result ≡ extent self.0 }
    {
        1 + self.held(Field::Period)
            + self.held(Field::Service)
            + self.held(Field::Deadline)
            + self.held(Field::Window)
            + self.held(Field::Required)
            + self.held(Field::History)
    }

    // The number of a field, which is `missing` where its bit does not stand, and the bytes behind it.
    fn field(self, field: Field, bytes: &[u8], missing: u64) -> (u64, &[u8])
        requires { stands self.0 (bit field) ≡ true → size (bit field) ≤ length bytes.now }
        ensures value { result.0 ≡ (if stands self.0 (bit field) then number (size (bit field)) bytes.now else missing) }
        ensures rest { result.1.now ≡ drop (if stands self.0 (bit field) then size (bit field) else 0) bytes.now }
    {
        if self.holds(field) {
            let (front, rest) = bytes.split_at(field.size());
            (number(front), rest)
        } else {
            (missing, bytes)
        }
    }
}

// The number that one or two bytes spell, the high byte first.
fn number(bytes: &[u8]) -> u64
    ensures { result ≡ number (length bytes.now) bytes.now }
{
    match bytes {
        [] => 0,
        [byte] => u64::from(*byte),
        [high, low, ..] => u64::from(u16::from_be_bytes([*high, *low])),
    }
}

// A history of k ones; what it is for a k above 63 does not matter, since no such k is admitted.
fn all_met(k: u64) -> u64
    ensures { k < 64 → result ≡ 2 ^ k - 1 }
{
    (1 << k.min(63)) - 1
}

impl Record<'_> {
    // Its six numbers, where the record before it has the period `before`.
    pub(crate) fn numbers(&self, before: u64) -> Numbers
        ensures period { result.period ≡ period before self.now.bytes.now }
        ensures service { result.service ≡ service self.now.bytes.now }
        ensures deadline { result.deadline ≡ deadline before self.now.bytes.now }
        ensures k { result.k ≡ window self.now.bytes.now }
        ensures m { result.m ≡ required self.now.bytes.now }
        ensures history { result.k < 64 → result.history ≡ history self.now.bytes.now }
    {
        let [byte, rest @ ..] = self.bytes else {
            unreachable!()
        };
        let map = Map(*byte);
        let (period, rest) = map.field(Field::Period, rest, before);
        let (service, rest) = map.field(Field::Service, rest, 1);
        let (deadline, rest) = map.field(Field::Deadline, rest, period);
        let (k, rest) = map.field(Field::Window, rest, 1);
        let (m, rest) = map.field(Field::Required, rest, k);
        let (history, _) = map.field(Field::History, rest, all_met(k));
        Numbers {
            period,
            deadline,
            service,
            m,
            k,
            history,
        }
    }
}
