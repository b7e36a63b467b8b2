ghost use Rattle.std.specs.Prelude.{◌^◌, ◌<◌, ◌≤◌};

mod counting;
mod distances;
mod making;
mod passing;
mod reading;
mod window;

// The latest k outcomes of a stream that needs m of any k on time; bit 0 is the newest, 1 for met.
#[derive(Clone, Copy, Debug, PartialEq, Eq)]
pub struct History {
    m: u8,
    k: u8,
    bits: u16,
    ghost some: { 1 ≤ m },
    ghost most: { m ≤ k },
    ghost wide: { k ≤ 16 },
    ghost fits: { bits < 2 ^ k },
}
