// What files in memory tell are bytes.
ghost use Rattle.std.specs.Prelude.{◌<◌, All};
ghost use Rattle.memory_files.specs.Memory.{memory_view};
ghost use Rattle.verify_laws.specs.Left.{HoldsBytes};

use memory_files::MemoryFiles;

// Bytes are below 256.
fn are_bytes(bytes: &[u8])
    ensures { All (λ b. b < 256) bytes.now }
{}

/// What files in memory tell under a name are bytes, as `played_files_are_verified` asks of the arrivals. Looks the name up, and does
/// nothing else.
pub fn memory_holds_bytes(files: &MemoryFiles, name: &str)
    ensures { HoldsBytes (memory_view files.now) name.now }
{
    match files.get(name) {
        Some(bytes) => are_bytes(bytes),
        None => (),
    }
}
