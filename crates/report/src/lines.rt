// The line of an admissible table. Of two numbers, and not by a `Display`: they are no type with a text of its own.
ghost use Rattle.std.specs.Prelude.{◌≡◌, IfOk, string_bytes};
ghost use Rattle.report.specs.Lines.{admitted};

use std::alloc::{AllocError, Global};

pub fn admitted_line(heap: Global, p: u32, n: u32) -> Result<String, AllocError>
    ensures { IfOk result (λ s. string_bytes s ≡ admitted p n) }
{
    format!(in heap; "admitted P {p} N {n}\n")
}
