// What is kept of a run for the lines on standard error.

use std::alloc::Global;
use std::io;

// The bytes of a capture's header.
const HEAD: usize = 24;

/// What a run read and wrote, as far as a message needs it. Where memory is short it keeps less, and the run goes on.
#[derive(Drop)]
pub struct Seen {
    conf: Vec<u8>,
    head: Vec<u8>,
    stats: Vec<u8>,
    error: Option<io::Error>,
}

impl Seen {
    /// Nothing yet.
    pub fn new(alloc: Global) -> Self {
        Seen {
            conf: Vec::new(alloc),
            head: Vec::new(alloc),
            stats: Vec::new(alloc),
            error: None,
        }
    }

    /// Keeps what was read of a part: all of the configuration, and of the arrivals the header.
    pub fn keep_read(&mut self, part: u8, bytes: &[u8]) {
        if part == 1 {
            let _ = self.conf.extend_from_slice(bytes);
        }
        if part == 2 {
            let lacks = HEAD.saturating_sub(self.head.len());
            let _ = self
                .head
                .extend_from_slice(bytes.get(..lacks).unwrap_or(bytes));
        }
    }

    /// Keeps what was written of a part: the statistics.
    pub fn keep_written(&mut self, part: u8, bytes: &[u8]) {
        if part == 5 {
            let _ = self.stats.extend_from_slice(bytes);
        }
    }

    /// Keeps the last error of the machine.
    pub fn keep_error(&mut self, error: io::Error) {
        self.error = Some(error);
    }

    /// The bytes of the configuration that were read.
    pub fn conf(&self) -> &[u8] {
        self.conf.as_slice()
    }

    /// The first bytes of the arrivals, up to 24.
    pub fn head(&self) -> &[u8] {
        self.head.as_slice()
    }

    /// The bytes of the statistics that were written.
    pub fn stats(&self) -> &[u8] {
        self.stats.as_slice()
    }

    /// The last error of the machine.
    pub fn error(&self) -> Option<io::Error> {
        self.error
    }
}
