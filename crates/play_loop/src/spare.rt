// Memory of packets that left the play, for those that are kept after them.
use play_base::Bytes;
use std::alloc::Global;

// The most memory of one packet that is kept, in bytes: a frame of most links is shorter. A packet of few bytes may take it and wait
// with it, so more would let memory grow.
const MOST_SPARE: usize = 2_048;

// Of how many packets it is kept beside that of the last one. Many may leave between two arrivals.
const MOST_ROOMS: usize = 64;

/// Memory of the packets that left last.
#[derive(Drop)]
pub struct Spare {
    room: Vec<u8>,
    more: Vec<Vec<u8>>,
}

impl Spare {
    // None. Does not allocate.
    pub fn new(alloc: Global) -> Spare {
        Spare {
            room: Vec::new(alloc),
            more: Vec::new(alloc),
        }
    }

    // The memory for the next packet that is kept, where there is any.
    #[inline(always)]
    pub fn room(&mut self) -> &mut Vec<u8> {
        if self.room.capacity() == 0 {
            if let Some(room) = self.more.pop() {
                self.room = room;
            }
        }
        &mut self.room
    }

    // Leaves the memory of a packet's bytes to those that are kept after it.
    #[inline(always)]
    pub fn leave(&mut self, bytes: Bytes) {
        let bytes = bytes.into_vec();
        if bytes.capacity() == 0 || bytes.capacity() > MOST_SPARE {
            return;
        }
        if self.room.capacity() == 0 {
            self.room = bytes;
        } else if self.more.len() < MOST_ROOMS {
            // Without memory for the list it goes.
            let _ = self.more.push(bytes);
        }
    }
}
