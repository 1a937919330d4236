// The bytes under each name.
ghost use Rattle.std.specs.Prelude.{◌≡◌, ◌≢◌, ◌++◌, ℕ, List, [], Some, OnOk, OnErr, option_map, unwrap_or};
ghost use Rattle.memory_files.specs.Memory.{bytes_under};

use std::alloc::{AllocError, Global};
use std::collections::BTreeMap;

// Sets the bytes under a name.
pub fn set_bytes(
    alloc: Global,
    names: &mut BTreeMap<String, Vec<u8>>,
    name: &str,
    bytes: Vec<u8>,
) -> Result<(), AllocError>
    ensures set { OnOk result (bytes_under names.new name.now ≡ Some bytes.items) }
    ensures others { OnOk result ((n : List ℕ) → n ≢ name.now → bytes_under names.new n ≡ bytes_under names.old n) }
    ensures err { OnErr result ((n : List ℕ) → bytes_under names.new n ≡ bytes_under names.old n) }
{
    names.insert(String::from_str(alloc, name)?, bytes)?;
    Ok(())
}

// Appends bytes to those under a name, which is made if it isn't there. It takes the time of the new bytes, since the
// old ones are not moved but where their room has to grow.
pub fn append_bytes(
    alloc: Global,
    names: &mut BTreeMap<String, Vec<u8>>,
    name: &str,
    bytes: &[u8],
) -> Result<(), AllocError>
    ensures grown { OnOk result (bytes_under names.new name.now ≡ Some (unwrap_or (bytes_under names.old name.now) [] ++ bytes.now)) }
    ensures others { OnOk result ((n : List ℕ) → n ≢ name.now → bytes_under names.new n ≡ bytes_under names.old n) }
    ensures err { OnErr result ((n : List ℕ) → bytes_under names.new n ≡ bytes_under names.old n) }
{
    match names.get_mut(name) {
        Some(held) => held.extend_from_slice(bytes),
        None => set_bytes(alloc, names, name, bytes.to_vec(alloc)?),
    }
}

// The bytes under a name, if it is there.
pub fn bytes_of<'a>(names: &'a BTreeMap<String, Vec<u8>>, name: &str) -> Option<&'a [u8]>
    ensures { option_map (λ s. s.now) result ≡ bytes_under names.now name.now }
{
    match names.get(name) {
        Some(bytes) => Some(bytes.as_slice()),
        None => None,
    }
}
