// The line of an input that is refused.
ghost use Rattle.std.specs.Prelude.{◌≡◌, IfOk, string_bytes};
ghost use Rattle.question.specs.Lines.{refused};

use refusal::Fault;
use std::alloc::{AllocError, Global};

// The line of a fault.
pub fn refused_line(heap: Global, fault: Fault) -> Result<String, AllocError>
    ensures { IfOk result (λ s. string_bytes s ≡ refused fault) }
{
    format!(in heap; "{fault}\n")
}
