// Reading the inputs of a command.
ghost use Rattle.std.specs.Prelude.{◌≡◌, ◌≤◌, None, Some, IfOk, IfErr, OnOk, length};
ghost use Rattle.file_plans.specs.declared.part.Part.TheVariants as part;
ghost use Rattle.file_plans.specs.End.{TookFew, most_configuration};
ghost use Rattle.file_plans.specs.Plan.{read_place};
ghost use Rattle.play_base.specs.View.{SameCounts};
ghost use Rattle.run_inputs.specs.Had.{AreHad, HaveCome, IsHad, IsUnready, asked_of};
ghost use Rattle.run_inputs.specs.Reading.{HasAsked, IsBegun, IsNoText, IsReadAlone, IsText, IsUnbegun, IsWhole, unbegun, unread};
ghost use Rattle.run_inputs.specs.Says.{absent};

use crate::{Arrivals, Asking, ReadConf, Stop, Unready};
use arrivals_front::{GivenFault, given_arrivals, take_to};
use conf_lines::{ConfFault, ConfKind, ConfPlace, statements};
use conf_tree::Conf;
use file_plans::{Entry, Part, Way, open_next};
use play_base::{Files, Trouble};
use std::alloc::Global;

/// The most bytes of a configuration.
const MOST: usize = 1 << 20;

// The bytes of the configuration's file.
#[derive(Drop)]
struct Text {
    bytes: Vec<u8>,
    file: u32,
}

// All that stands under the configuration's name; of more than 2^20 bytes one more is taken.
#[tactic(auto, using(play_base::proofs::ViewLaws::same_trans, play_base::proofs::ViewLaws::same_refl))]
fn read_text<F: Files>(alloc: Global, files: &mut F, asking: &Asking<'_>) -> Result<Text, Unready>
    ensures alone { IsReadAlone (read_place part.Configuration asking.now.config.now) (F.view files.old) (F.view files.new) }
    ensures few { TookFew (F.view files.old) (F.view files.new) 1 asking.now.config.now }
    ensures whole { IfOk result (IsWhole (F.view files.old) (F.view files.new) (asked_of asking.now None)) }
    ensures unready { IfErr result (IsUnready (asked_of asking.now None) (F.view files.old) (F.view files.new)) }
    ensures counts { OnOk result (SameCounts (F.view files.old) (F.view files.new)) }
{
    let entry = Entry {
        part: Part::Configuration,
        name: asking.config,
        way: Way::Read,
    };
    let file = match open_next(files, &entry) {
        Ok(file) => file,
        Err(trouble) => return Err(unread(Stop::NoConfiguration, trouble)),
    };
    let mut bytes = Vec::new(alloc);
    match take_to(files, file, &mut bytes, MOST + 1) {
        Ok(()) => {}
        Err(trouble) => return Err(unread(Stop::NoConfiguration, trouble)),
    }
    if bytes.len() > MOST {
        return Err(Unready::Stop(Stop::LongConfiguration));
    }
    Ok(Text { bytes, file })
}

// What trouble with an opening or a read means.
fn unread(stop: Stop, trouble: Trouble) -> Unready
    ensures { result ≡ unread stop trouble }
{
    match trouble {
        Trouble::Failed => Unready::Stop(stop),
        Trouble::NoMemory => Unready::NoMemory,
    }
}

// Whether the configuration has the interfaces asked for.
fn has_asked(conf: &Conf, asking: &Asking<'_>) -> bool
    ensures { HasAsked (asked_of asking.now None) conf.now result }
{
    let Some(_) = conf.interface(asking.interface) else {
        return false;
    };
    let Some(name) = asking.next else {
        return true;
    };
    conf.interface(name).is_some()
}

// The configuration of a text.
fn conf_of(alloc: Global, text: &[u8], asking: &Asking<'_>) -> Result<Conf, Unready>
    requires { length text.now ≤ most_configuration }
    ensures accepted { IfOk result (IsText (asked_of asking.now None) text.now) }
    ensures refused { IfErr result (IsNoText (asked_of asking.now None) text.now) }
{
    let Ok(found) = statements(alloc, text) else {
        return Err(Unready::NoMemory);
    };
    let conf = match Conf::build(alloc, found.as_slice()) {
        Ok(conf) => conf,
        Err(ConfFault::At(place)) => return Err(Unready::Stop(Stop::Refused(place))),
        Err(ConfFault::NoMemory) => return Err(Unready::NoMemory),
    };
    if !has_asked(&conf, asking) {
        return Err(Unready::Stop(Stop::Refused(absent())));
    }
    Ok(conf)
}

// The place of an interface that a configuration lacks.
fn absent() -> ConfPlace
    ensures { result ≡ absent }
{
    ConfPlace {
        line: 0,
        word: 0,
        kind: ConfKind::NoInterface,
    }
}

/// Reads the configuration whole, and finds the interfaces asked for. Opens no other file, and takes at most 2^20 + 1 bytes.
///
/// It stops as `NoConfiguration` where the name is not there, or a read fails; as `LongConfiguration` past 2^20 bytes; as `Refused` at the
/// first fault of the text, or at line 0 where an interface is absent (altq.conf(5)).
#[tactic(auto, using(play_base::proofs::ViewLaws::same_trans, play_base::proofs::ViewLaws::same_refl))]
pub fn read_configuration<F: Files>(
    alloc: Global,
    files: &mut F,
    asking: &Asking<'_>,
) -> Result<ReadConf, Unready>
    ensures came { HaveCome (asked_of asking.now None) (F.view files.old) (F.view files.new) }
    ensures had { IfOk result (IsHad (asked_of asking.now None) (F.view files.old) (F.view files.new)) }
    ensures unready { IfErr result (IsUnready (asked_of asking.now None) (F.view files.old) (F.view files.new)) }
    ensures counts { OnOk result (SameCounts (F.view files.old) (F.view files.new)) }
{
    let text = match read_text(alloc, files, asking) {
        Ok(text) => text,
        Err(unready) => return Err(unready),
    };
    match conf_of(alloc, text.bytes.as_slice(), asking) {
        Ok(conf) => Ok(ReadConf {
            conf,
            file: text.file,
        }),
        Err(unready) => Err(unready),
    }
}

// Why arrivals cannot be begun.
fn unbegun(fault: GivenFault) -> Unready
    ensures { result ≡ unbegun fault }
{
    match fault {
        GivenFault::At(block) => Unready::Stop(Stop::NoPcapng(block)),
        GivenFault::Limit => Unready::Stop(Stop::LongPcapng),
        GivenFault::Read => Unready::Stop(Stop::NoArrivals),
        GivenFault::NoMemory => Unready::NoMemory,
    }
}

// Opens the arrivals and begins them.
#[tactic(auto, using(play_base::proofs::ViewLaws::same_trans, play_base::proofs::ViewLaws::same_refl))]
fn begin_arrivals<F: Files>(alloc: Global, files: &mut F, name: &str) -> Result<Arrivals, Unready>
    ensures alone { IsReadAlone (read_place part.Arrivals name.now) (F.view files.old) (F.view files.new) }
    ensures begun { IfOk result (IsBegun (F.view files.old) (F.view files.new) name.now) }
    ensures unbegun { IfErr result (IsUnbegun (F.view files.old) (F.view files.new) name.now) }
    ensures counts { OnOk result (SameCounts (F.view files.old) (F.view files.new)) }
{
    let entry = Entry {
        part: Part::Arrivals,
        name,
        way: Way::Read,
    };
    let file = match open_next(files, &entry) {
        Ok(file) => file,
        Err(trouble) => return Err(unread(Stop::NoArrivals, trouble)),
    };
    match given_arrivals(alloc, files, file) {
        Ok(given) => Ok(Arrivals { file, given }),
        Err(fault) => Err(unbegun(fault)),
    }
}

/// Reads the configuration as `read_configuration` does and, behind it, opens the arrivals and begins them: of a pcapng file all is taken and
/// converted, of any other the first four bytes.
///
/// It stops as `read_configuration` does; as `NoArrivals` where their name is not there, or a read fails; as `NoPcapng` and `LongPcapng` where
/// they begin as a pcapng file that is no capture, at the first block that fails a test, or too long (IETF draft-ietf-opsawg-pcapng).
#[tactic(auto, using(play_base::proofs::ViewLaws::same_trans, play_base::proofs::ViewLaws::same_refl))]
pub fn read_inputs<F: Files>(
    alloc: Global,
    files: &mut F,
    asking: &Asking<'_>,
    arrivals: &str,
) -> Result<(ReadConf, Arrivals), Unready>
    ensures came { HaveCome (asked_of asking.now (Some arrivals.now)) (F.view files.old) (F.view files.new) }
    ensures had { IfOk result (λ r. AreHad (asked_of asking.now (Some arrivals.now)) arrivals.now (F.view files.old) (F.view files.new) r.0 r.1) }
    ensures unready { IfErr result (IsUnready (asked_of asking.now (Some arrivals.now)) (F.view files.old) (F.view files.new)) }
    ensures counts { OnOk result (SameCounts (F.view files.old) (F.view files.new)) }
{
    let conf = match read_configuration(alloc, files, asking) {
        Ok(conf) => conf,
        Err(unready) => return Err(unready),
    };
    match begin_arrivals(alloc, files, arrivals) {
        Ok(arrivals) => Ok((conf, arrivals)),
        Err(unready) => Err(unready),
    }
}
