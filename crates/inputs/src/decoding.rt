// Bytes from hexadecimal digits.
ghost use Rattle.std.specs.Prelude.{◌≡◌, IfOk};
ghost use Rattle.std.specs.Option.{option_map};
ghost use Rattle.std.specs.Result.{result_ok};
ghost use Rattle.hex.specs.Hex.{decode_of};

use std::alloc::{AllocError, Global};

// The bytes that hexadecimal digits spell, or none where they are no such digits or an odd number of them.
pub fn decoded(heap: Global, digits: &[u8]) -> Result<Option<Vec<u8>>, AllocError>
    ensures { IfOk result (λ bytes. option_map (λ v. v.items) bytes ≡ result_ok (decode_of digits.now)) }
{
    let mut bytes = vec![in heap; 0u8; digits.len() / 2]?;
    let spelt = hex::decode_to_slice(digits, &mut bytes);
    Ok(spelt.ok().map(|()| bytes))
}
