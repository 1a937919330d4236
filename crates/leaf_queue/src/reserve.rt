// Slabs with reserved room, whose indices fit 32 bits.
ghost use Rattle.std.specs.Prelude.{◌≡◌, ◌≤◌, ◌<◌, ◌^◌, [], IfOk};

use play_base::NoMemory;
use slab::Slab;
use std::alloc::Global;

// Room for `count` values.
pub fn reserved<T: Drop>(alloc: Global, count: u32) -> Result<Slab<T>, NoMemory>
    ensures empty { IfOk result (λ s. s.slots ≡ []) }
    ensures room { IfOk result (λ s. count ≤ s.capacity) }
    ensures small { IfOk result (λ s. s.capacity < 2 ^ 32) }
{
    let slab = Slab::with_capacity(alloc, count as usize)?;
    if slab.capacity() > u32::MAX as usize {
        return Err(NoMemory);
    }
    Ok(slab)
}
