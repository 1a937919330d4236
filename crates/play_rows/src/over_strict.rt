// Plays through the loop itself over two classes in strict order, which filters tell apart.
ghost use Rattle.std.specs.Prelude.{◌≡◌, ◌≤◌, ◌^◌, ◌∷◌, [], codes, length, IfOk};
ghost use Rattle.memory_files.specs.Steady.{steady_view};
ghost use Rattle.play_loop.specs.Played.{AreReady};
ghost use Rattle.play_words.specs.Words.{AreDistinct};

use altq_model::{Placed, Rule};
use conf_lines::statements;
use conf_tree::Conf;
use frame_classes::Classifier;
use leaf_queue::{Tail, Words};
use memory_files::SteadyFiles;
use plain_disciplines::{Classify, Discipline, Strict};
use play_base::{Files, NoMemory};
use play_loop::{KeepsNothing, Opened, PlayFault, Totals, play_told};
use play_text::Names;
use play_words::PlayWords;
use std::alloc::Global;
use std::test::Fail;

// Voice by its port, and data.
const VOICE_AND_DATA: &str = "interface if0 bandwidth 8M hfsc
class hfsc if0 root NULL pshare 100
class hfsc if0 voice root [sc 4M 5 1M]
class hfsc if0 data root [sc 0 5 4M] default
filter if0 voice 0 5004 0 0 17
";

// A classifier, of whose classes every one but the first counts as the second; packets leave as they came.
#[derive(Drop)]
struct TwoClasses {
    frames: Classifier,
}

impl Classify for TwoClasses {
    ghost use Rattle.std.specs.Prelude.{◌==◌, if◌then◌else◌, min};
    ghost use Rattle.std.proofs.Common.{refl};

    ghost placed = { λ c frame. record {
      class = if (⟦<Classifier as Classify>⟧.placed c.frames frame).class == 1 then 1 else 2;
      prec = min (⟦<Classifier as Classify>⟧.placed c.frames frame).prec 2;
    } };

    ghost dressed = { λ c class marked frame. frame };

    fn class(&self, frame: &[u8]) -> Placed {
        let placed = self.frames.class(frame);
        Placed {
            class: if placed.class == 1 { 1 } else { 2 },
            prec: placed.prec.min(2),
        }
    }

    fn dress(&self, _class: u32, _marked: bool, _frame: &mut [u8]) {}

    ghost lengths = { λ c class marked frame. refl };
}

// The classifier of voice and data.
fn voice_and_data(alloc: Global) -> Result<TwoClasses, Fail> {
    let found = statements(alloc, VOICE_AND_DATA.as_bytes())?;
    let Ok(conf) = Conf::build(alloc, found.as_slice()) else {
        return Err(Fail::new("refused"));
    };
    let Some(interface) = conf.interface("if0") else {
        return Err(Fail::new("absent"));
    };
    let frames = Classifier::build(alloc, interface)?;
    Ok(TwoClasses { frames })
}

// The names of the two classes.
fn two_names(alloc: Global) -> Result<Names, NoMemory>
    ensures { IfOk result (λ names. names ≡ (1, codes "voice") ∷ (2, codes "data") ∷ []) }
{
    let mut names = Names::make(alloc);
    names.add(1, "voice")?;
    names.add(2, "data")?;
    Ok(names)
}

// Voice before data, each in a queue of 50.
fn two_queues(alloc: Global) -> Result<Strict<Tail>, NoMemory>
    ensures empty { IfOk result (λ s. (⟦<Strict<Tail> as Discipline>⟧.view s).represents []) }
    ensures classes { IfOk result (λ s. (⟦<Strict<Tail> as Discipline>⟧.view s).policy.classes ≡ 1 ∷ 2 ∷ []) }
{
    let mut queues = Vec::new(alloc);
    queues.push(Tail { limit: 50 })?;
    queues.push(Tail { limit: 50 })?;
    Strict::build(alloc, 1, Rule::Share, queues)
}

// Plays the opened capture through both.
fn play_two(
    alloc: Global,
    files: &mut SteadyFiles,
    classes: &TwoClasses,
    rate: u64,
    opened: &Opened<'_>,
) -> Result<Totals, PlayFault>
    requires ready { AreReady (steady_view files.old) opened.now }
    requires least { 1000 ≤ rate }
    requires most { rate ≤ 10 ^ 12 }
{
    let Ok(names) = two_names(alloc) else {
        return Err(PlayFault::NoMemory);
    };
    let Ok(mut queues) = two_queues(alloc) else {
        return Err(PlayFault::NoMemory);
    };
    let mut words = Words::new(42);
    play_told(
        alloc,
        &mut queues,
        classes,
        &names,
        rate,
        &mut words,
        opened,
        &mut KeepsNothing,
        files,
    )
}

// The names of the files.
const NAMES: PlayWords<'static> = PlayWords {
    config: "conf",
    interface: "if0",
    arrivals: "in",
    departures: "out",
    fates: "fates",
    stats: "stats",
    seed: 42,
};

// Opens the arrivals, and creates the outputs of a play.
fn opened(files: &mut SteadyFiles, words: &PlayWords<'_>) -> Result<Opened<'static>, Fail>
    requires { AreDistinct words.now.config.now words.now.arrivals.now words.now.departures.now words.now.fates.now words.now.stats.now }
    ensures { IfOk result (λ o. AreReady (steady_view files.new) o) }
{
    let Ok(arrivals) = files.open(2, words.arrivals) else {
        return Err(Fail::new("arrivals"));
    };
    let Ok(departures) = files.create(3, words.departures) else {
        return Err(Fail::new("departures"));
    };
    let Ok(fates) = files.create(4, words.fates) else {
        return Err(Fail::new("fates"));
    };
    let Ok(stats) = files.create(5, words.stats) else {
        return Err(Fail::new("statistics"));
    };
    Ok(Opened {
        arrivals,
        first: &[],
        departures,
        fates,
        stats,
    })
}

/// The header of a capture in little-endian nanoseconds.
pub const HEAD: [u8; 24] = [
    0x4d, 0x3c, 0xb2, 0xa1, 2, 0, 4, 0, 0, 0, 0, 0, 0, 0, 0, 0, 0, 0, 4, 0, 1, 0, 0, 0,
];

/// How the play of the file `in` ends on a link of this rate; nothing where it is done.
pub fn ended(alloc: Global, files: &mut SteadyFiles, rate: u64) -> Result<Option<PlayFault>, Fail>
    requires least { 1000 ≤ rate }
    requires most { rate ≤ 10 ^ 12 }
{
    let classes = voice_and_data(alloc)?;
    let opened = opened(files, &NAMES)?;
    Ok(play_two(alloc, files, &classes, rate, &opened).err())
}
