ghost use Rattle.std.specs.Prelude.{◌≡◌, ◌<◌, ◌≤◌, length, min, vec_len};

/// A file that was opened or created, with the bytes that stood under its name then and the place read up to.
#[derive(Drop)]
pub struct OpenedFile {
    pub part: u8,
    pub name: String,
    pub bytes: Vec<u8>,
    pub place: usize,
    ghost small: { part < 16 },
    ghost inside: { place ≤ vec_len bytes },
}

/// How many bytes one read, or one write, moves at most.
#[derive(Clone, Copy)]
pub struct Chunk {
    pub most: u32,
    ghost some: { 1 ≤ most },
}

impl Chunk {
    // How many of these bytes are moved at once: some, where there are some.
    pub fn count(&self, bytes: &[u8]) -> usize
        ensures count { result ≡ min (length bytes.now) self.now.most }
        ensures some { result ≡ 0 → length bytes.now ≡ 0 }
    {
        bytes.len().min(self.most as usize)
    }
}
