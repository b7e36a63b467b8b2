// A record as a part of the file's bytes, and the reader that hands it out.
ghost use Rattle.std.specs.Prelude.{◌≡◌, ◌≤◌, length, slice_index};
ghost use Rattle.model.specs.Fields.{extent};

use streams::Table;

pub(crate) mod cutting;
mod walking;

// One record: its bytes, the field map first, and as many of them as the map says.
#[derive(Clone, Copy)]
pub struct Record<'a> {
    pub bytes: &'a [u8],
    ghost whole: { length bytes.now ≡ extent (slice_index bytes.now 0) },
}

// Walks over a file, record by record: the next one begins at `at`, the one before it has the period `before`,
// and `table` holds the streams of those so far.
#[derive(Drop)]
pub struct Reader<'a> {
    pub file: &'a [u8],
    pub at: usize,
    pub before: Option<u64>,
    pub table: Table,
    ghost within: { at ≤ length file.now },
}
