// A case: what was said so far, and the files of its runs.

use crate::command::{add_status, run_over, run_words};
use crate::trials::{Each, OUTPUTS};
use case_bytes::{
    Form, How, add_lines, add_records, add_text, arrive, begin, change, number, word,
};
use case_calls::{add_flow_of, average, next_at, of_curve};
use memory_files::{Call, MemoryFiles, SteadyFiles};
use std::alloc::Global;

/// What was said since the case began, and the files of its runs.
#[derive(Drop)]
pub struct Case {
    pub alloc: Global,
    pub config: String,
    pub capture: Vec<u8>,
    pub files: MemoryFiles,
    form: Form,
    pieces: (u32, u32),
}

// The kind of call that a word names.
fn call_of(word: &str) -> Option<Call> {
    match word {
        "open" => Some(Call::Open),
        "create" => Some(Call::Create),
        "read" => Some(Call::Read),
        "write" => Some(Call::Write),
        "say" => Some(Call::Say),
        _ => None,
    }
}

// Whether a word names a file of a run.
fn is_file(word: &str) -> bool {
    matches!(word, "conf" | "in" | "out" | "fates" | "stats" | "marked")
}

impl Case {
    /// A case of which nothing was said.
    pub fn new(alloc: Global) -> Option<Case> {
        let form = Form {
            big: false,
            micro: false,
        };
        let mut capture = Vec::new(alloc);
        begin(&mut capture, form)?;
        Some(Case {
            alloc,
            config: String::new(alloc),
            capture,
            files: MemoryFiles::new(alloc),
            form,
            pieces: (u32::MAX, u32::MAX),
        })
    }

    /// Does what a line says, and adds what is to stand below it.
    pub fn follow(&mut self, line: &str, answer: &mut String) -> Option<()> {
        if let Some(text) = line.strip_prefix("    ") {
            return write!(self.config, "{text}\n").ok();
        }
        if let Some(text) = line.strip_prefix("$ line ") {
            return self.check_with(text, answer);
        }
        if line.is_empty() || line.starts_with('#') {
            return Some(());
        }
        if line.starts_with("==") {
            *self = Case::new(self.alloc)?;
            return Some(());
        }
        let words: Vec<&str> = line.split_whitespace().collect(self.alloc).ok()?;
        self.obey(&words, answer)
    }

    // Does what the words of a line say.
    fn obey(&mut self, words: &[&str], answer: &mut String) -> Option<()> {
        let (name, rest) = words.split_first()?;
        match *name {
            "$" => self.ask(rest, answer),
            "head" => self.begin(rest),
            "bytes" => self.change(How::Add, rest),
            "cut" => self.change(How::Cut, rest),
            "put" => self.change(How::Put, rest),
            "row" => self.change(How::Row, rest),
            "fail" => self.fail(rest),
            "repeat" => self.repeat(rest),
            "pieces" => self.set_pieces(rest),
            "anew" => self.forget(),
            _ => arrive(self.alloc, &mut self.capture, self.form, words),
        }
    }

    // Answers what is asked behind `$`.
    fn ask(&mut self, words: &[&str], answer: &mut String) -> Option<()> {
        let (name, rest) = words.split_first()?;
        match *name {
            "cat" => add_text(answer, self.files.get(rest.first()?)),
            "lines" => self.lines(rest, answer),
            "packets" => self.packets(rest, answer),
            "flow" => add_flow_of(self.alloc, answer, rest),
            "curve" => add_number(answer, of_curve(rest)),
            "average" => add_number(answer, average(rest)),
            "next" => self.next(rest, answer),
            "each" => self.each(rest, answer),
            "steady" => self.steady(rest, answer),
            _ => self.run(words, answer),
        }
    }

    // Begins the capture anew in the form of these words.
    fn begin(&mut self, words: &[&str]) -> Option<()> {
        let [order, unit] = words else {
            return None;
        };
        self.form = Form {
            big: *order == "big",
            micro: *unit == "micro",
        };
        begin(&mut self.capture, self.form)
    }

    /// Files of which a read and a write move as much as is said.
    pub fn new_files(&self) -> MemoryFiles {
        let (read, write) = self.pieces;
        let mut files = MemoryFiles::new(self.alloc);
        files.chunk(read.max(1));
        files.short_writes(write.max(1));
        files
    }

    // Forgets the files, and which calls are to fail.
    fn forget(&mut self) -> Option<()> {
        self.files = self.new_files();
        Some(())
    }

    // Begins the files anew, with the most bytes that a read moves, and the most that a write moves.
    fn set_pieces(&mut self, words: &[&str]) -> Option<()> {
        let [read, write] = words else {
            return None;
        };
        self.pieces = (word(read)?, word(write)?);
        self.forget()
    }

    // Changes the bytes of a file, or of the capture.
    fn change(&mut self, how: How, words: &[&str]) -> Option<()> {
        let (name, rest) = words.split_first()?;
        if !is_file(name) {
            return change(self.alloc, &mut self.capture, how, words);
        }
        let bytes = self.files.get(name).unwrap_or_default();
        let mut bytes = Vec::from_slice(self.alloc, bytes).ok()?;
        change(self.alloc, &mut bytes, how, rest)?;
        self.files.put(name, &bytes).ok()
    }

    // Lets the nth call of a kind fail, from 0.
    fn fail(&mut self, words: &[&str]) -> Option<()> {
        let [call, nth] = words else {
            return None;
        };
        self.files.fail_at(call_of(call)?, number(nth)?).ok()
    }

    // Adds this many lines of configuration.
    fn repeat(&mut self, words: &[&str]) -> Option<()> {
        let (count, words) = words.split_first()?;
        let text = words.join(self.alloc, " ").ok()?;
        for i in 1..=number(count)? {
            self.add_row(i, text.as_str())?;
        }
        Some(())
    }

    // Adds a line of configuration, with its number in the place of `%`.
    fn add_row(&mut self, number: u64, text: &str) -> Option<()> {
        match text.split_once('%') {
            Some((before, behind)) => write!(self.config, "{before}{number}{behind}\n").ok(),
            None => write!(self.config, "{text}\n").ok(),
        }
    }

    // Tells lines of a file.
    fn lines(&self, words: &[&str], answer: &mut String) -> Option<()> {
        let [name, from, to] = words else {
            return None;
        };
        let bytes = self.files.get(name).unwrap_or_default();
        let text = str::from_utf8(bytes).unwrap_or_default();
        add_lines(answer, text, number(from)?, number(to)?)
    }

    // Tells the records of a capture, all or the first.
    fn packets(&self, words: &[&str], answer: &mut String) -> Option<()> {
        let (name, most) = words.split_first()?;
        let most = match most.first() {
            Some(most) => number(most)?,
            None => u64::MAX,
        };
        add_records(answer, self.files.get(name), most)
    }

    // Tells what the discipline of the configuration answers at a moment.
    fn next(&self, words: &[&str], answer: &mut String) -> Option<()> {
        let moment = number(words.first()?)?;
        if moment > i64::MAX as u64 {
            return None;
        }
        let mut files = MemoryFiles::new(self.alloc);
        files.put("conf", self.config.as_bytes()).ok()?;
        files.put("in", &self.capture).ok()?;
        next_at(self.alloc, &mut files, moment, answer).ok()
    }

    // Checks the configuration with this line behind it, and tells the last line of what is said.
    fn check_with(&self, line: &str, answer: &mut String) -> Option<()> {
        let config = self.config.as_str();
        let config = format!(in self.alloc; "{config}{line}").ok()?;
        let mut files = MemoryFiles::new(self.alloc);
        let check = ["check", ".."];
        run_over(self.alloc, &mut files, config.as_str(), &[], &check)?;
        add_last(answer, files.said())
    }

    // Runs a command, and tells its message and how it ended.
    fn run(&mut self, command: &[&str], answer: &mut String) -> Option<()> {
        let before = self.files.said().len();
        let config = self.config.as_str();
        let status = run_over(self.alloc, &mut self.files, config, &self.capture, command)?;
        add_text(answer, self.files.said().get(before..))?;
        add_status(answer, status)
    }

    // Runs a command again and again, and tells where it ends otherwise.
    fn each(&self, words: &[&str], answer: &mut String) -> Option<()> {
        let (what, rest) = words.split_first()?;
        if *what == "cut" {
            return self.tell_runs(Each::Cut, rest, answer);
        }
        let (fails, command) = rest.split_first()?;
        if *fails != "fails" {
            return None;
        }
        self.tell_runs(Each::Fails(call_of(what)?), command, answer)
    }

    // Runs a command over files that never fail, and keeps what it wrote.
    fn steady(&mut self, command: &[&str], answer: &mut String) -> Option<()> {
        let mut files = SteadyFiles::new(self.alloc);
        self.run_steadily(&mut files, command, answer)
    }

    fn run_steadily(
        &mut self,
        files: &mut SteadyFiles,
        command: &[&str],
        answer: &mut String,
    ) -> Option<()> {
        let (read, write) = self.pieces;
        files.chunk(read.max(1));
        files.short_writes(write.max(1));
        files.put("conf", self.config.as_bytes()).ok()?;
        files.put("in", &self.capture).ok()?;
        let status = run_words(self.alloc, files, command)?;
        for name in &OUTPUTS {
            self.files
                .put(name, files.get(name).unwrap_or_default())
                .ok()?;
        }
        add_text(answer, Some(files.said()))?;
        add_status(answer, status)
    }
}

// Adds the last line of a text.
fn add_last(answer: &mut String, text: &[u8]) -> Option<()> {
    let text = str::from_utf8(text).unwrap_or_default();
    answer
        .push_str(text.lines().next_back().unwrap_or_default())
        .ok()
}

// Adds a number, or that there is none.
fn add_number(answer: &mut String, number: Option<Option<u128>>) -> Option<()> {
    match number? {
        Some(number) => write!(answer, "{number}").ok(),
        None => answer.push_str("never").ok(),
    }
}
