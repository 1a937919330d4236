// The play of an interface, from a capture to departures and fates.
ghost use Rattle.std.specs.Prelude.{◌≡◌, ◌≤◌, ◌^◌, [], ◌++◌, ℕ, List, IsSome, IsTrue, IfOk, IfErr, OnOk, OnErr};
ghost use Rattle.play_text.specs.Texts.{fates_header};
ghost use Rattle.capture_model.specs.Header.{capture_header};
ghost use Rattle.altq_model.specs.Lawful.{IsOneOf};
ghost use Rattle.play_base.specs.View.{NoneAppears, SameCounts, ReadFault};
ghost use Rattle.discipline.specs.Laws.{HasRate};
ghost use Rattle.discipline.specs.View.{SameKind};
ghost use Rattle.play_text.specs.Names.{HasClass};
ghost use Rattle.play_loop.specs.Answers.{IsAnswer, IsBrokenOff, answer_of};
ghost use Rattle.class_counts.specs.Counting.{HasCounted};
ghost use Rattle.play_loop.specs.Ending.{HasBroken, HasRun, IsClean};
ghost use Rattle.play_loop.specs.Kept.{KeepsPlayed, OnlyPlayed, OnlyWrote, TookOnly};
ghost use Rattle.play_loop.specs.Outputs.{AreOpened, FrontsAre, IsWriteCause, SameFiles, TextsAre};
ghost use Rattle.play_loop.specs.Played.{AreEmpty, AreReady, Explains, Fronts, HeadsFirst, LeavesStats, Plays, RowsWait};
ghost use Rattle.play_loop.specs.Reading.{CanRead, StartsOn};
ghost use Rattle.play_loop.specs.Setup.{IsSound, setup_of};
ghost use Rattle.play_loop.specs.Told.{HasDecided, Tells};
ghost use Rattle.play_loop.specs.Underway.{IsUnderway, moment};

use crate::arriving::arrive;
use crate::ending::{Due, Ending, capture_fault};
use crate::keeper::Keeper;
use crate::outputs::{Outputs, Tally, output_fault};
use crate::sending::{play_packet, send_due};
use crate::writing::{finish, write_stats};
use crate::{Limit, Opened, Output, PlayFault};
use altq_model::Counts;
use capture_model::every_file_has_a_reading;
use class_counts::no_counts;
use discipline::{Classify, Discipline};
use leaf_queue::Words;
use pcap_files::{CaptureFault, Reader, head_bytes};
use play_base::{Files, write_all};
use play_core::{Progress, Totals};
use play_text::{Names, Rows, fates_header};
use std::alloc::Global;

// Writes the header of the departures, and then the header row of the fates.
#[tactic(auto, using(play_base::proofs::ViewLaws::same_trans, play_base::proofs::ViewLaws::same_refl, discipline::proofs::ViewLaws::kind_trans, discipline::proofs::ViewLaws::kind_refl))]
fn write_heads<F: Files>(files: &mut F, departures: u32, fates: u32) -> Result<(), PlayFault>
    requires departures { IsSome ((F.view files.old).part departures) }
    requires fates { IsSome ((F.view files.old).part fates) }
    ensures wrote { OnOk result (AreEmpty (F.view files.old) departures fates →
        TextsAre (F.view files.new) departures fates [] [] capture_header fates_header) }
    ensures no_fault { OnOk result (SameCounts (F.view files.old) (F.view files.new)) }
    ensures stopped { OnErr result (AreEmpty (F.view files.old) departures fates →
        FrontsAre (F.view files.new) departures fates capture_header fates_header) }
    ensures rows { OnErr result (AreEmpty (F.view files.old) departures fates → IsTrue (F.view files.old).tells →
        RowsWait (F.view files.new) departures fates) }
    ensures others { OnlyWrote departures fates (F.view files.old) (F.view files.new) }
    ensures why { IfErr result (IsWriteCause departures fates (F.view files.old) (F.view files.new)) }
{
    match write_all(files, departures, &head_bytes()) {
        Ok(()) => {}
        Err(trouble) => return Err(output_fault(Output::Departures, trouble)),
    }
    match write_all(files, fates, fates_header()) {
        Ok(()) => Ok(()),
        Err(trouble) => Err(output_fault(Output::Fates, trouble)),
    }
}

/// Plays the capture that the arrivals hold through a discipline, to which nothing was offered yet, and a link of `rate` bits
/// per second, 1,000 to 10^12. It writes both headers, and then reads the records one by one: after each it makes every sending that
/// starts before the record's packet arrives, and offers the packet; at the end of the capture it makes the rest, and writes the
/// statistics. A record for each sending and a row for each fate are gathered as they are decided, up to 65,536 bytes for each file.
/// `classify` gives the class and the precedence of each frame and the bytes with which it leaves, `names` has a name for each class
/// that it gives, and of the random words of `words` none is drawn yet.
///
/// What each error means, and when it comes, `PlayFault` says. After a fault or a limit of the capture, departures and fates hold
/// exactly what was decided up to the offer of its last complete record, and after a sending that would end too late exactly what was
/// decided before it; after any other error fronts of their texts. The statistics hold nothing then, but after a failed write of them,
/// or lack of memory, maybe a front. Whatever the error, the fates hold nothing unless the departures hold their whole header, and
/// nothing more was taken of the arrivals unless both headers stand.
///
/// Holds one packet besides those that wait, a piece of 65,536 bytes of the capture, what is gathered, and the counts of each class:
/// nothing that grows with the capture. A packet takes the memory of one that left, so at most 2,048 bytes, or twice its own; that of up
/// to 65 that left is kept for those to come. Costs a few steps and the bytes of each packet, and what the discipline and `classify` cost.
///
/// Each decision is told to a keeper as soon as its texts are added. After Ok it was told the journal, and each packet's arrival with it;
/// after another answer nothing is said of what it was told. The discipline stays of its kind.
#[tactic(auto, using(play_base::proofs::ViewLaws::same_trans, play_base::proofs::ViewLaws::same_refl, discipline::proofs::ViewLaws::kind_trans, discipline::proofs::ViewLaws::kind_refl))]
pub fn play_told<D: Discipline, C: Classify, F: Files, K: Keeper>(
    alloc: Global,
    discipline: &mut D,
    classify: &C,
    names: &Names,
    rate: u64,
    words: &mut Words,
    opened: &Opened<'_>,
    keeper: &mut K,
    files: &mut F,
) -> Result<Totals, PlayFault>
    requires ready { AreReady (F.view files.old) opened.now }
    requires least { 1000 ≤ rate }
    requires most { rate ≤ 10 ^ 12 }
    requires rate { HasRate (D.view discipline.old).link_rate rate }
    requires new { (D.view discipline.old).represents [] }
    requires fresh { words.old.drawn ≡ 0 }
    requires held { (frame : List ℕ) → IsOneOf (C.placed classify.now frame).class (D.view discipline.old).policy.classes }
    requires precs { (frame : List ℕ) → (C.placed classify.now frame).prec ≤ 2 }
    requires named { (frame : List ℕ) → HasClass names.now (C.placed classify.now frame).class }
    requires begun { K.told keeper.old [] }
    ensures done { IfOk result (Plays (setup_of (D.view discipline.old).policy (C.placed classify.now) (C.dressed classify.now) names.now rate words.old.seed)
        (D.view discipline.new).represents (F.view files.old) (F.view files.new) opened.now) }
    ensures told { IfOk result (Tells (setup_of (D.view discipline.old).policy (C.placed classify.now) (C.dressed classify.now) names.now rate words.old.seed)
        (D.view discipline.new).represents (K.told keeper.new) (F.view files.old) (F.view files.new) opened.now) }
    ensures decided { IfOk result (HasDecided (setup_of (D.view discipline.old).policy (C.placed classify.now)
        (C.dressed classify.now) names.now rate words.old.seed)
        (K.told keeper.new)) }
    ensures fixed { K.fixed keeper.new ≡ K.fixed keeper.old }
    ensures kind { SameKind (D.view discipline.old) (D.view discipline.new) }
    ensures no_fault { OnOk result (SameCounts (F.view files.old) (F.view files.new)) }
    ensures why { IfErr result (Explains (setup_of (D.view discipline.old).policy (C.placed classify.now)
        (C.dressed classify.now) names.now rate words.old.seed)
        (D.view discipline.new).represents (F.view files.old) (F.view files.new) opened.now) }
    ensures front { OnErr result (Fronts (setup_of (D.view discipline.old).policy (C.placed classify.now)
        (C.dressed classify.now) names.now rate words.old.seed)
        (F.view files.old) (F.view files.new) opened.now) }
    ensures heads { OnErr result (HeadsFirst (F.view files.old) (F.view files.new) opened.now) }
    ensures stats { IfErr result (LeavesStats (setup_of (D.view discipline.old).policy (C.placed classify.now)
        (C.dressed classify.now) names.now rate words.old.seed)
        (F.view files.old) (F.view files.new) opened.now) }
    ensures keeps { KeepsPlayed opened.now (F.view files.old) (F.view files.new) }
    ensures took { TookOnly opened.now (F.view files.old) (F.view files.new) }
    ensures none { NoneAppears (F.view files.old) (F.view files.new) }
    ensures said { (F.view files.new).said ≡ (F.view files.old).said }
{
    let Ok(counts) = no_counts(alloc, names) else {
        return Err(PlayFault::NoMemory);
    };
    let tally = match play_capture(
        alloc, discipline, classify, names, rate, words, opened, keeper, files, counts,
    ) {
        Ok(tally) => tally,
        Err(fault) => return Err(fault),
    };
    match write_stats(alloc, files, opened.stats, names, tally.counts.as_slice()) {
        Ok(()) => Ok(tally.totals),
        Err(fault) => Err(fault),
    }
}

// Plays a capture, and writes all but the statistics.
#[tactic(auto, using(play_base::proofs::ViewLaws::same_trans, play_base::proofs::ViewLaws::same_refl, discipline::proofs::ViewLaws::kind_trans, discipline::proofs::ViewLaws::kind_refl))]
fn play_capture<D: Discipline, C: Classify, F: Files, K: Keeper>(
    alloc: Global,
    discipline: &mut D,
    classify: &C,
    names: &Names,
    rate: u64,
    words: &mut Words,
    opened: &Opened<'_>,
    keeper: &mut K,
    files: &mut F,
    counts: Vec<Counts>,
) -> Result<Tally, PlayFault>
    requires ready { AreReady (F.view files.old) opened.now }
    requires least { 1000 ≤ rate }
    requires most { rate ≤ 10 ^ 12 }
    requires rate { HasRate (D.view discipline.old).link_rate rate }
    requires new { (D.view discipline.old).represents [] }
    requires fresh { words.old.drawn ≡ 0 }
    requires sound { IsSound (setup_of (D.view discipline.old).policy (C.placed classify.now) (C.dressed classify.now) names.now rate words.old.seed) }
    requires none { HasCounted names.now [] [] counts.items }
    requires begun { K.told keeper.old [] }
    ensures answer { IsAnswer (setup_of (D.view discipline.old).policy (C.placed classify.now) (C.dressed classify.now) names.now rate words.old.seed)
        (D.view discipline.new).represents (K.told keeper.new) (F.view files.old) (F.view files.new) opened.now result }
    ensures fixed { K.fixed keeper.new ≡ K.fixed keeper.old }
    ensures kind { SameKind (D.view discipline.old) (D.view discipline.new) }
    ensures others { OnlyPlayed opened.now.arrivals opened.now.departures opened.now.fates (F.view files.old) (F.view files.new) }
{
    let mut outputs = Outputs::new(alloc, opened, counts);
    match play_opened(
        alloc,
        discipline,
        classify,
        names,
        rate,
        words,
        opened,
        keeper,
        files,
        &mut outputs,
    ) {
        Ok((ending, totals)) => answer(ending, totals, outputs.into_counts()),
        Err(fault) => Err(fault),
    }
}

// Plays a capture to outputs to which nothing was added, and says how its events ended. What it holds besides is dropped before the
// outputs are taken apart.
#[tactic(auto, using(play_base::proofs::ViewLaws::same_trans, play_base::proofs::ViewLaws::same_refl, discipline::proofs::ViewLaws::kind_trans, discipline::proofs::ViewLaws::kind_refl))]
fn play_opened<D: Discipline, C: Classify, F: Files, K: Keeper>(
    alloc: Global,
    discipline: &mut D,
    classify: &C,
    names: &Names,
    rate: u64,
    words: &mut Words,
    opened: &Opened<'_>,
    keeper: &mut K,
    files: &mut F,
    outputs: &mut Outputs,
) -> Result<(Ending, Totals), PlayFault>
    requires ready { AreReady (F.view files.old) opened.now }
    requires least { 1000 ≤ rate }
    requires most { rate ≤ 10 ^ 12 }
    requires rate { HasRate (D.view discipline.old).link_rate rate }
    requires new { (D.view discipline.old).represents [] }
    requires fresh { words.old.drawn ≡ 0 }
    requires sound { IsSound (setup_of (D.view discipline.old).policy (C.placed classify.now) (C.dressed classify.now) names.now rate words.old.seed) }
    requires opened { AreOpened outputs.old opened.now }
    requires no_records { outputs.old.records.items ≡ [] }
    requires no_rows { outputs.old.rows ≡ [] }
    requires none { HasCounted names.now [] [] outputs.old.counts.items }
    requires begun { K.told keeper.old [] }
    ensures ended { IfOk result (λ end. IsAnswer (setup_of (D.view discipline.old).policy (C.placed classify.now)
        (C.dressed classify.now) names.now rate words.old.seed)
        (D.view discipline.new).represents (K.told keeper.new) (F.view files.old) (F.view files.new) opened.now
        (answer_of end.0 (record { totals = end.1; counts = outputs.new.counts }))) }
    ensures broken { IfErr result (IsBrokenOff (setup_of (D.view discipline.old).policy (C.placed classify.now)
        (C.dressed classify.now) names.now rate words.old.seed)
        (D.view discipline.new).represents (F.view files.old) (F.view files.new) opened.now) }
    ensures fixed { K.fixed keeper.new ≡ K.fixed keeper.old }
    ensures kind { SameKind (D.view discipline.old) (D.view discipline.new) }
    ensures others { OnlyPlayed opened.now.arrivals opened.now.departures opened.now.fates (F.view files.old) (F.view files.new) }
{
    match write_heads(files, opened.departures, opened.fates) {
        Ok(()) => {}
        Err(fault) => return Err(fault),
    }
    let mut reader = match Reader::start(alloc, files, opened.arrivals, opened.first) {
        Ok(reader) => reader,
        Err(fault) => return Err(capture_fault(fault)),
    };
    let Ok(mut progress) = Progress::begin(alloc, discipline, rate) else {
        return Err(PlayFault::NoMemory);
    };
    let ending = match play_records(
        &mut reader,
        &mut progress,
        discipline,
        classify,
        names,
        words,
        outputs,
        keeper,
        files,
    ) {
        Ok(ending) => ending,
        Err(fault) => return Err(fault),
    };
    match finish(files, outputs) {
        Ok(()) => {}
        Err(fault) => return Err(fault),
    }
    // A law, which the proof cites: it does nothing.
    every_file_has_a_reading();
    Ok((ending, progress.totals()))
}

// What the play of a capture answers that ended so.
fn answer(ending: Ending, totals: Totals, counts: Vec<Counts>) -> Result<Tally, PlayFault>
    ensures { result ≡ answer_of ending (record { totals = totals; counts = counts }) }
{
    match ending {
        Ending::Whole => Ok(Tally { totals, counts }),
        Ending::Cut(fault) => Err(capture_fault(fault)),
        Ending::Late => Err(PlayFault::Limit(Limit::Clock)),
    }
}

// Plays the records that a reader has not answered yet: each before the next is read, and at the end of the capture what is left.
#[tactic(auto, using(play_base::proofs::ViewLaws::same_trans, play_base::proofs::ViewLaws::same_refl, discipline::proofs::ViewLaws::kind_trans, discipline::proofs::ViewLaws::kind_refl))]
fn play_records<D: Discipline, C: Classify, F: Files, K: Keeper>(
    reader: &mut Reader,
    progress: &mut Progress,
    discipline: &mut D,
    classify: &C,
    names: &Names,
    words: &mut Words,
    outputs: &mut Outputs,
    keeper: &mut K,
    files: &mut F,
) -> Result<Ending, PlayFault>
    requires reads { CanRead (F.view files.old) reader.old outputs.old }
    requires under { IsUnderway (setup_of (D.view discipline.old).policy (C.placed classify.now)
        (C.dressed classify.now) names.now progress.old.clock.rate words.old.seed)
        (moment (D.view discipline.old) (F.view files.old) outputs.old (K.told keeper.old) progress.old) [] words.old [] }
    ensures ended { IfOk result (HasRun (setup_of (D.view discipline.old).policy (C.placed classify.now)
        (C.dressed classify.now) names.now progress.old.clock.rate words.old.seed) (StartsOn (F.view files.old) reader.old)
        (moment (D.view discipline.new) (F.view files.new) outputs.new (K.told keeper.new) progress.new) reader.new words.new) }
    ensures broken { OnErr result (HasBroken (setup_of (D.view discipline.old).policy (C.placed classify.now)
        (C.dressed classify.now) names.now progress.old.clock.rate words.old.seed) (StartsOn (F.view files.old) reader.old)
        (F.view files.new) outputs.old) }
    ensures no_fault { IfOk result (λ ending. IsClean ending → SameCounts (F.view files.old) (F.view files.new)) }
    ensures read { IfOk result (λ ending. ending ≡ Ending.Cut CaptureFault.Read → ReadFault (F.view files.old) (F.view files.new) reader.old.file) }
    ensures why { IfErr result (IsWriteCause outputs.old.departures outputs.old.fates (F.view files.old) (F.view files.new)) }
    ensures same { SameFiles outputs.old outputs.new }
    ensures file { reader.new.file ≡ reader.old.file }
    ensures others { OnlyPlayed reader.old.file outputs.old.departures outputs.old.fates (F.view files.old) (F.view files.new) }
    ensures fixed { K.fixed keeper.new ≡ K.fixed keeper.old }
    ensures kind { SameKind (D.view discipline.old) (D.view discipline.new) }
{
    let mut latest = 0;
    'records: loop {
        let found = match reader.next(files) {
            Ok(found) => found,
            Err(fault) => return Ok(Ending::Cut(fault)),
        };
        let Some(found) = found else {
            return match send_due(
                progress, discipline, classify, names, None, outputs, keeper, files,
            ) {
                Ok(Due::Made) => Ok(Ending::Whole),
                Ok(Due::Late) => Ok(Ending::Late),
                Err(fault) => Err(fault),
            };
        };
        let record = reader.lend(found);
        let number = progress.totals().arrived + 1;
        let counts = &mut outputs.counts;
        let arriving = arrive(&record, classify, names, number, latest, counts);
        latest = arriving.packet.at;
        match play_packet(
            progress, discipline, classify, names, words, &arriving, outputs, keeper, files,
        ) {
            Ok(Due::Made) => {}
            Ok(Due::Late) => return Ok(Ending::Late),
            Err(fault) => return Err(fault),
        }
    }
}
