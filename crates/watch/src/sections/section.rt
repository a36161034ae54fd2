ghost use Rattle.std.specs.Prelude.{◌≡◌, ◌+◌, ◌<◌, ◌≤◌, length};
ghost use Rattle.model.specs.Sections.{section_length};

// The bytes so far of an open section, `len` of them in a buffer of fixed size: no heap, and rows of a table are copied,
// as the kit's vectors are not. A whole section has 3 + 1021 at most, so an open one has room for one more.
#[derive(Clone, Copy)]
pub struct Section {
    buffer: [u8; 1024],
    len: usize,
    ghost long: { length buffer ≡ 1024 },
    ghost unfinished: { 3 ≤ len → (len < 3 + section_length buffer) × (section_length buffer ≤ 1021) },
}

mod assembly;
