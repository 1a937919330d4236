// A command that runs again and again, each time over files of its own.

use crate::case::Case;
use crate::command::{add_status, run_over};
use memory_files::{Call, MemoryFiles};
use run_outcomes::Status;

/// What changes from run to run, by its number from 0: the capture is cut to that many bytes, or the call of that number fails.
#[derive(Clone, Copy)]
pub enum Each {
    Cut,
    Fails(Call),
}

/// What a play writes.
pub const OUTPUTS: [&str; 3] = ["out", "fates", "stats"];

impl Case {
    /// Tells how the runs of a command end: each run that ends otherwise than the one before it.
    pub fn tell_runs(&self, each: Each, command: &[&str], answer: &mut String) -> Option<()> {
        let mut before = String::new(self.alloc);
        for n in 0..u64::MAX {
            if !self.tell_run(each, n, command, &mut before, answer)? {
                break;
            }
        }
        Some(())
    }

    // Tells how one run ends where that is not as before, and answers whether another follows.
    fn tell_run(
        &self,
        each: Each,
        n: u64,
        command: &[&str],
        before: &mut String,
        answer: &mut String,
    ) -> Option<bool> {
        let mut ending = String::new(self.alloc);
        let goes_on = self.run_once(each, n, command, &mut ending)?;
        if ending != *before {
            write!(answer, "from {n}: {ending}\n").ok()?;
            *before = ending;
        }
        Some(goes_on)
    }

    // Adds how one run ends.
    fn run_once(&self, each: Each, n: u64, command: &[&str], ending: &mut String) -> Option<bool> {
        let mut files = self.new_files();
        match each {
            Each::Cut => self.run_cut(&mut files, n, command, ending),
            Each::Fails(call) => self.run_failing(&mut files, call, n, command, ending),
        }
    }

    // Runs it over the first bytes of the capture.
    fn run_cut(
        &self,
        files: &mut MemoryFiles,
        n: u64,
        command: &[&str],
        ending: &mut String,
    ) -> Option<bool> {
        let capture = self.capture.get(..n as usize)?;
        let status = run_over(self.alloc, files, self.config.as_str(), capture, command)?;
        add_status(ending, status)?;
        add_place(ending, status, n)?;
        let out = files.get("out").unwrap_or_default().len();
        write!(ending, ", out {out}").ok()?;
        Some(capture.len() < self.capture.len())
    }

    // Runs it where a call fails.
    fn run_failing(
        &self,
        files: &mut MemoryFiles,
        call: Call,
        n: u64,
        command: &[&str],
        ending: &mut String,
    ) -> Option<bool> {
        files.fail_at(call, n).ok()?;
        let status = run_over(
            self.alloc,
            files,
            self.config.as_str(),
            &self.capture,
            command,
        )?;
        add_status(ending, status)?;
        for name in &OUTPUTS {
            add_output(ending, name, files.get(name), self.files.get(name))?;
        }
        Some(n < files.calls(call))
    }
}

// Adds the place of a damage.
fn add_place(ending: &mut String, status: Status, end: u64) -> Option<()> {
    let place = status.place;
    if status.code != 4 {
        return Some(());
    }
    if place == end {
        return ending.push_str(" at the cut").ok();
    }
    write!(ending, " at {place}").ok()
}

// Adds whether an output is whole, or no front of it.
fn add_output(
    ending: &mut String,
    name: &str,
    left: Option<&[u8]>,
    whole: Option<&[u8]>,
) -> Option<()> {
    let (left, whole) = (left.unwrap_or_default(), whole.unwrap_or_default());
    if !whole.starts_with(left) {
        return write!(ending, ", other {name}").ok();
    }
    if left.len() == whole.len() {
        return write!(ending, ", whole {name}").ok();
    }
    Some(())
}
