// What the discipline of a case answers at a moment.

ghost use Rattle.std.specs.Prelude.{◌≡◌, ◌≤◌, ◌<◌, ◌^◌, [], ℕ, List, IfOk, IfSome, length};
ghost use Rattle.altq_model.specs.Lawful.{IsOneOf};
ghost use Rattle.conf_tree.specs.declared.interface.Kind.TheVariants as kind;
ghost use Rattle.discipline.specs.Laws.{HasRate};
ghost use Rattle.frame_classes.specs.Frames.{place_in};
ghost use Rattle.interface_play.specs.Setup.{IsConfigured};

use crate::sendings::play_until;
use conf_laws::configurations_fit;
use conf_tree::{Interface, Kind};
use discipline::{Classify, Discipline, Pick, Rule};
use frame_classes::{Classifier, frames_have_classes};
use input_files::{Records, read_records};
use interface_policy::{cbq_of, hfsc_of, interfaces_keep_their_promises};
use link_clock::LinkClock;
use memory_files::MemoryFiles;
use pcap_files::CaptureFault;
use play_base::{Files, NoMemory, Trouble};
use run_inputs::{Asking, Unready, found, read_configuration};
use std::alloc::Global;

// The word of a rule.
fn rule_word(rule: Rule) -> &'static str {
    match rule {
        Rule::RealTime => "realtime",
        Rule::Share => "share",
        Rule::Own => "own",
        Rule::Borrow => "borrow",
    }
}

// Adds an answer in words.
fn tell(answer: &mut String, interface: &Interface, pick: Pick) -> Result<(), NoMemory> {
    match pick {
        Pick::Send {
            ticket,
            class,
            rule,
            ..
        } => {
            let number = ticket.0;
            let rule = rule_word(rule);
            let name = match interface.classes.as_slice().get(class as usize) {
                Some(class) => class.name.as_str(),
                None => "?",
            };
            Ok(write!(answer, "send {number} {name} {rule}")?)
        }
        Pick::Wait { till } => Ok(write!(answer, "wait {till}")?),
        Pick::Empty => Ok(answer.push_str("empty")?),
    }
}

// What a discipline to which nothing was offered yet answers once these records are played up to a moment; or when the packet ends
// that is under way.
fn answer_of<D: Discipline, C: Classify>(
    rate: u64,
    discipline: &mut D,
    classify: &C,
    records: &Records,
    moment: u64,
) -> Result<Pick, u64>
    requires early { moment < 2 ^ 63 }
    requires few { length records.now ≤ 4000000 }
    requires least { 1000 ≤ rate }
    requires most { rate ≤ 10 ^ 12 }
    requires rate { HasRate (D.view discipline.old).link_rate rate }
    requires new { (D.view discipline.old).represents [] }
    requires held { (frame : List ℕ) → IsOneOf (C.placed classify.now frame).class (D.view discipline.old).policy.classes }
    requires precs { (frame : List ℕ) → (C.placed classify.now frame).prec ≤ 2 }
{
    let mut clock = LinkClock::new(rate);
    play_until(discipline, &mut clock, classify, records, moment);
    let free = clock.free();
    if free > moment {
        return Err(free);
    }
    Ok(discipline.next(moment, &clock))
}

// The answer of HFSC, of which the classifier tells the classes of frames.
fn by_hfsc(
    alloc: Global,
    interface: &Interface,
    classifier: &Classifier,
    records: &Records,
    moment: u64,
) -> Result<Result<Pick, u64>, NoMemory>
    requires early { moment < 2 ^ 63 }
    requires few { length records.now ≤ 4000000 }
    requires configured { IsConfigured interface.now }
    requires kind { interface.now.kind ≡ kind.Hfsc }
    requires placed { ⟦<Classifier as Classify>⟧.placed classifier.now ≡ place_in interface.now }
{
    configurations_fit();
    frames_have_classes();
    interfaces_keep_their_promises();
    let mut hfsc = hfsc_of(alloc, interface)?;
    let rate = interface.rate;
    Ok(answer_of(rate, &mut hfsc, classifier, records, moment))
}

// The answer of CBQ likewise.
fn by_cbq(
    alloc: Global,
    interface: &Interface,
    classifier: &Classifier,
    records: &Records,
    moment: u64,
) -> Result<Result<Pick, u64>, NoMemory>
    requires early { moment < 2 ^ 63 }
    requires few { length records.now ≤ 4000000 }
    requires configured { IsConfigured interface.now }
    requires kind { interface.now.kind ≡ kind.Cbq }
    requires placed { ⟦<Classifier as Classify>⟧.placed classifier.now ≡ place_in interface.now }
{
    configurations_fit();
    frames_have_classes();
    interfaces_keep_their_promises();
    let mut cbq = cbq_of(alloc, interface)?;
    let rate = interface.rate;
    Ok(answer_of(rate, &mut cbq, classifier, records, moment))
}

// The answer of the discipline of an interface.
fn answer_in(
    alloc: Global,
    interface: &Interface,
    records: &Records,
    moment: u64,
) -> Result<Result<Pick, u64>, NoMemory>
    requires early { moment < 2 ^ 63 }
    requires few { length records.now ≤ 4000000 }
    requires configured { IsConfigured interface.now }
{
    let classifier = Classifier::build(alloc, interface)?;
    match interface.kind {
        Kind::Hfsc => by_hfsc(alloc, interface, &classifier, records, moment),
        Kind::Cbq => by_cbq(alloc, interface, &classifier, records, moment),
    }
}

// Adds the answer of the discipline of an interface.
fn tell_answer(
    alloc: Global,
    interface: &Interface,
    records: &Records,
    moment: u64,
    answer: &mut String,
) -> Result<(), NoMemory>
    requires early { moment < 2 ^ 63 }
    requires few { length records.now ≤ 4000000 }
    requires configured { IsConfigured interface.now }
{
    match answer_in(alloc, interface, records, moment)? {
        Ok(pick) => tell(answer, interface, pick),
        Err(free) => Ok(write!(answer, "busy {free}")?),
    }
}

// The records of the capture `in`, or nothing where it has a fault.
fn records_in(alloc: Global, files: &mut MemoryFiles) -> Result<Option<Records>, NoMemory>
    ensures { IfOk result (λ found. IfSome found (λ records. length records ≤ 4000000)) }
{
    let file = match files.open(0, "in") {
        Ok(file) => file,
        Err(Trouble::Failed) => return Ok(None),
        Err(Trouble::NoMemory) => return Err(NoMemory),
    };
    match read_records(alloc, files, file) {
        Ok(records) => Ok(Some(records)),
        Err(CaptureFault::NoMemory) => Err(NoMemory),
        Err(_) => Ok(None),
    }
}

/// Adds what the discipline of `if0` answers at a moment before 2^63, by the configuration `conf` and the capture `in`.
pub fn next_at(
    alloc: Global,
    files: &mut MemoryFiles,
    moment: u64,
    answer: &mut String,
) -> Result<(), NoMemory>
    requires { moment < 2 ^ 63 }
{
    let asking = Asking {
        config: "conf",
        interface: "if0",
        next: None,
    };
    let read = match read_configuration(alloc, files, &asking) {
        Ok(read) => read,
        Err(Unready::NoMemory) => return Err(NoMemory),
        Err(Unready::Stop(_)) => return Ok(answer.push_str("refused")?),
    };
    let interface = found(&read.conf, "if0");
    match records_in(alloc, files)? {
        Some(records) => tell_answer(alloc, interface, &records, moment, answer),
        None => Ok(answer.push_str("refused")?),
    }
}
