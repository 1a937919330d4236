// Marks the records of a capture as their bytes are taken.
ghost use Rattle.std.specs.Prelude.{◌≡◌, ◌≤◌, ◌<◌, ◌+◌, ◌^◌, ◌++◌, ◌⊎◌, List, ℕ, [], true, false, min, length, take, Ok, IsSome, IfOk, OnErr, OnOk, IsErrOf};
ghost use Rattle.play_base.specs.View.{IsAtEnd, ReadFault, SameCounts};
ghost use Rattle.marked_files.specs.Markings.{IsUnused};
ghost use Rattle.marked_files.specs.Metering.{AreAssured};
ghost use Rattle.marked_files.specs.Taking.{HasAdvanced, HasGivenAll, HasPassed, HasRead, HasReady, HasTaken, holds};
ghost use Rattle.capture_model.specs.Capture.{damage, header};
ghost use Rattle.marked_files.specs.Standing.{HasTakenOn, IsHalted, IsRefused, KeepsStanding, IsAtRecordEnd, Tells, TellsLeft, Waits, has_header, head_tells, reach, stand_tells, told_last, told_of};
ghost use Rattle.marked_files.specs.declared.behind.Behind.TheVariants.{Damaged, More};
ghost use Rattle.marked_files.specs.declared.stage.Stage.TheVariants.{Records, Start};
ghost use Rattle.traffic_marks.specs.Marked.{Conditioning};

use crate::behind::Behind;
use crate::metering::new_meters;
use crate::record_head::{RECORD_HEAD, headed};
use crate::stage::Stage;
use crate::window::Window;
use discipline::Classify;
use pcap_files::{Damage, DamageKind, Head, Progress, Stand, stand_at};
use play_base::{Files, NoMemory, Trouble};
use std::alloc::Global;
use std::marker::Model;
use traffic_meter::{Meter, MeterRule};

// Bytes of a capture's head.
const FILE_HEAD: usize = 24;

/// Marks a capture whose bytes it takes in pieces: it has the classes of frames, a meter for each class with a conditioner, and room
/// for one record, 262,160 bytes. Contracts see what it stands for.
#[derive(Drop)]
pub struct Marker<C: Classify + Drop> {
    classes: C,
    meters: Vec<Option<Meter>>,
    window: Window,
    stage: Stage,
    count: u32,
    place: u32,
    latest: u64,
}

impl<C: Classify + Drop> Model for Marker<C> {
    ghost use Rattle.std.specs.Prelude.{◌≤◌, ◌+◌, ◌^◌, length};
    ghost use Rattle.marked_files.specs.Markings.{Marking};
    ghost use Rattle.marked_files.specs.Metering.{AreReady};

    ghost Value = { Marking C };

    ghost view = { λ m. record {
      classes = m.classes;
      stage = m.stage;
      course = record { count = m.count; at = m.place; latest = m.latest; meters = m.meters.items };
      held = m.window;
    } };

    ghost invariant = { λ m. (m.count ≤ 4000000) × (m.place ≤ 2 ^ 30) × AreReady m.latest m.meters.items
        × (length m.window.ready + length m.window.pending ≤ 262160) };
}

// A damage of this kind at a place.
fn damaged_at(place: u32, kind: DamageKind) -> Behind
    ensures { result ≡ Damaged (damage place kind) }
{
    Behind::Damaged(Damage {
        place: u64::from(place),
        kind,
    })
}

// What the bytes tell with which a capture begins.
fn head_tells(bytes: &[u8]) -> Behind
    ensures { result ≡ head_tells (header bytes.now) }
{
    match Head::read(bytes) {
        Ok(_) => Behind::More,
        Err(damage) => Behind::Damaged(damage),
    }
}

// What the bytes at a record's place tell.
fn stand_tells(stand: Stand, place: u32) -> Behind
    ensures { result ≡ stand_tells stand place }
{
    match stand {
        Stand::End => Behind::End,
        Stand::Limit => Behind::Limit,
        Stand::Damaged(kind) => damaged_at(place, kind),
        Stand::Headed {
            stamp: _stamp,
            captured: _captured,
            original: _original,
        } => Behind::More,
    }
}

impl<C: Classify + Drop> Marker<C> {
    /// A marker with full buckets, for a capture of which these first bytes were taken: the rule of each class stands at the class's
    /// number, none where the class has no conditioner. It takes all its memory here, of 262,160 bytes and the meters; `NoMemory` comes
    /// only when memory runs out.
    pub fn build(
        alloc: Global,
        classes: C,
        rules: &[Option<MeterRule>],
        first: &[u8],
    ) -> Result<Marker<C>, NoMemory>
        requires assured { AreAssured rules.now }
        requires few { length first.now ≤ 262160 }
        ensures unused { IfOk result (IsUnused classes rules.now first.now) }
    {
        let Ok(meters) = new_meters(alloc, rules) else {
            return Err(NoMemory);
        };
        let Ok(mut window) = Window::new(alloc) else {
            return Err(NoMemory);
        };
        window.put(first);
        Ok(Marker {
            classes,
            meters,
            window,
            stage: Stage::Start,
            count: 0,
            place: 24,
            latest: 0,
        })
    }

    // Makes the head of the capture ready, where it stands whole, and says whether it did.
    fn pass_head(&mut self) -> bool
        requires start { self.old.stage ≡ Start }
        ensures next { HasPassed C.placed result self.old self.new }
        ensures stands { result ≡ true → KeepsStanding C.placed self.old self.new }
        ensures halts { result ≡ false → IsHalted self.old self.new }
    {
        let pending = self.window.pending();
        if pending.len() < FILE_HEAD {
            return false;
        }
        match Head::read(pending) {
            Ok(head) => {
                self.stage = Stage::Records(head);
                self.window.pass(FILE_HEAD);
                true
            }
            Err(_) => {
                self.stage = Stage::Rest;
                false
            }
        }
    }

    // Marks the next record of a capture in this form and makes it ready, where it stands whole, and says whether it did.
    fn pass_record(&mut self, head: Head) -> bool
        requires records { self.old.stage ≡ Records head }
        ensures next { HasPassed C.placed result self.old self.new }
        ensures stands { result ≡ true → KeepsStanding C.placed self.old self.new }
        ensures halts { result ≡ false → IsHalted self.old self.new }
    {
        let pending = self.window.pending();
        if pending.len() < RECORD_HEAD {
            return false;
        }
        let Some(record) = headed(head, self.count, self.place, pending) else {
            self.stage = Stage::Rest;
            return false;
        };
        let whole = RECORD_HEAD + record.captured as usize;
        if pending.len() < whole {
            return false;
        }
        let class = self.classes.class(&pending[RECORD_HEAD..whole]).class;
        self.latest = self.latest.max(record.stamp);
        let len = record.original.max(record.captured);
        self.window
            .mark_record(record.captured, &mut self.meters, class, self.latest, len);
        self.count += 1;
        self.place += 16 + record.captured;
        true
    }

    // Makes the head or a record ready, where the next one stands whole, and says whether it did.
    fn pass_next(&mut self) -> bool
        ensures next { HasPassed C.placed result self.old self.new }
        ensures stands { result ≡ true → KeepsStanding C.placed self.old self.new }
        ensures halts { result ≡ false → IsHalted self.old self.new }
    {
        match self.stage {
            Stage::Start => self.pass_head(),
            Stage::Records(head) => self.pass_record(head),
            Stage::Rest => false,
        }
    }

    // Makes the head and the records ready that stand whole in the bytes that are held, and leaves those behind them.
    fn pass_whole(&mut self)
        ensures stands { KeepsStanding C.placed self.old self.new }
        ensures halts { Waits self.new ⊎ IsRefused self.new }
        ensures many { holds self.new ≡ holds self.old }
    {
        let mut stage = self.stage;
        while self.pass_next() {
            stage = self.stage;
        }
        self.stage = stage;
    }

    // What the bytes tell that are not ready.
    fn told(&self) -> Behind
        ensures value { result ≡ told_of self.now }
    {
        let pending = self.window.pending();
        match self.stage {
            Stage::Start => head_tells(pending),
            Stage::Records(head) => {
                let progress = Progress {
                    count: self.count,
                    place: self.place,
                };
                stand_tells(stand_at(head, progress, pending), self.place)
            }
            Stage::Rest => Behind::End,
        }
    }

    // Whether as many bytes are not ready as a head, or a record's header, has.
    fn has_header(&self) -> bool
        ensures value { result ≡ has_header self.now }
    {
        let pending = self.window.pending();
        match self.stage {
            Stage::Start => pending.len() >= FILE_HEAD,
            Stage::Records(_) => pending.len() >= RECORD_HEAD,
            Stage::Rest => true,
        }
    }

    // The same once the file is at its end.
    fn told_last(&self) -> Behind
        ensures value { result ≡ told_last (told_of self.now) self.now.course.at }
    {
        match self.told() {
            Behind::More => damaged_at(self.place, DamageKind::ShortRecord),
            told => told,
        }
    }

    // Takes bytes from the file by one read, to the end of those that are not ready, and says how many.
    fn take_piece<F: Files>(&mut self, files: &mut F, file: u32) -> Result<usize, Trouble>
        requires there { IsSome ((F.view files.old).part file) }
        requires given { length self.old.held.ready ≡ 0 }
        requires waits { Waits self.old }
        ensures taken { HasTakenOn C.placed (F.view files.old) (F.view files.new) file self.old self.new }
        ensures far { IfOk result (λ n. reach self.new ≡ reach self.old + n) }
        ensures end { IfOk result (λ n. n ≡ 0 → IsAtEnd (F.view files.new) file) }
        ensures waits { IfOk result (λ n. n ≡ 0 → Waits self.new) }
        ensures stays { OnErr result (Waits self.new) }
        ensures given { length self.new.held.ready ≡ 0 }
        ensures bound { reach self.new ≤ 2 ^ 30 + 24 + 262160 }
        ensures room { holds self.new ≤ 262160 }
        ensures counts { OnOk result (SameCounts (F.view files.old) (F.view files.new)) }
        ensures failed { IsErrOf result Trouble.Failed → ReadFault (F.view files.old) (F.view files.new) file }
    {
        let count = match self.window.fill(files, file) {
            Ok(count) => count,
            Err(trouble) => return Err(trouble),
        };
        Ok(count)
    }

    // Makes ready what stands whole, and says what stands behind that.
    #[tactic(auto, using(crate::proofs::BehindLemmas::tells_there, crate::proofs::BehindLemmas::waits_short, crate::proofs::BehindLemmas::waits_more))]
    fn pass_on(&mut self) -> Behind
        ensures stands { KeepsStanding C.placed self.old self.new }
        ensures tells { (left : List ℕ) → Tells C.placed self.new left result }
        ensures waits { result ≡ More → Waits self.new }
        ensures many { holds self.new ≡ holds self.old }
    {
        self.pass_whole();
        if !self.has_header() {
            return Behind::More;
        }
        self.told()
    }

    // Makes ready all that the bytes that are held tell of.
    fn advance(&mut self)
        ensures all { HasAdvanced C.placed self.old self.new }
    {
        while self.pass_next() {}
        if let Stage::Rest = self.stage {
            self.window.pass_all();
        }
    }

    // One turn of `prepare`, which says whether another may be needed.
    fn take<F: Files>(&mut self, files: &mut F, file: u32) -> Result<bool, Trouble>
        requires there { IsSome ((F.view files.old).part file) }
        requires given { length self.old.held.ready ≡ 0 }
        ensures taken { HasTaken C.placed (F.view files.old) (F.view files.new) file self.old self.new }
        ensures ready { result ≡ Ok false → HasReady (F.view files.new) file self.new }
        ensures more { result ≡ Ok true → length self.old.held.pending < length self.new.held.pending }
        ensures room { holds self.new ≤ 262160 }
        ensures counts { OnOk result (SameCounts (F.view files.old) (F.view files.new)) }
        ensures refused { OnErr result (HasGivenAll self.new) }
        ensures failed { IsErrOf result Trouble.Failed → ReadFault (F.view files.old) (F.view files.new) file }
    {
        self.advance();
        if !self.window.is_given() {
            return Ok(false);
        }
        match self.window.fill(files, file) {
            Ok(0) => {
                self.stage = Stage::Rest;
                self.window.pass_all();
                Ok(false)
            }
            Ok(_) => Ok(true),
            Err(trouble) => Err(trouble),
        }
    }

    // Takes bytes from the file until one is ready, or the file is at its end and all are given. Where a read fails, the bytes that
    // were taken stay, and what is given of the file's bytes too.
    fn prepare<F: Files>(&mut self, files: &mut F, file: u32) -> Result<(), Trouble>
        requires there { IsSome ((F.view files.old).part file) }
        ensures taken { HasTaken C.placed (F.view files.old) (F.view files.new) file self.old self.new }
        ensures room { holds self.new ≤ 262160 }
        ensures ready { OnOk result (HasReady (F.view files.new) file self.new) }
        ensures counts { OnOk result (SameCounts (F.view files.old) (F.view files.new)) }
        ensures refused { OnErr result (HasGivenAll self.new) }
        ensures failed { IsErrOf result Trouble.Failed → ReadFault (F.view files.old) (F.view files.new) file }
    {
        while self.window.is_given() {
            match self.take(files, file) {
                Ok(true) => {}
                Ok(false) => return Ok(()),
                Err(trouble) => return Err(trouble),
            }
        }
        Ok(())
    }

    /// The bytes that are ready to be given. Does not allocate, in constant time.
    pub fn ready(&self) -> &[u8]
        ensures { result.now ≡ self.now.held.ready }
    {
        self.window.ready()
    }

    /// Lets go of the bytes that are ready: they were given.
    pub fn give_ready(&mut self)
        ensures ready { self.new.held.ready ≡ [] }
        ensures stands { (c : Conditioning) (taken bytes : List ℕ) → IsAtRecordEnd C.placed c taken bytes self.old
            → IsAtRecordEnd C.placed c taken (bytes ++ self.old.held.ready) self.new }
        ensures waits { Waits self.old → Waits self.new }
        ensures reach { reach self.new ≡ reach self.old }
    {
        self.window.give_all();
    }

    /// Takes bytes from the file by one read of at most 65,536 bytes, and makes the head and the records ready, marked, that then stand
    /// whole; what stands behind them is never ready. Says what does: `End`, `Damaged` and `Limit` come exactly where the file tells of
    /// them, whatever was taken of it. After an error nothing was taken. `Failed` comes only where the count of read faults of the
    /// file's part rose, `NoMemory` only from `files`. At most 262,160 bytes are held. Does not allocate itself.
    pub fn next_records<F: Files>(&mut self, files: &mut F, file: u32) -> Result<Behind, Trouble>
        requires there { IsSome ((F.view files.old).part file) }
        requires given { length self.old.held.ready ≡ 0 }
        requires waits { Waits self.old }
        ensures taken { HasTakenOn C.placed (F.view files.old) (F.view files.new) file self.old self.new }
        ensures tells { IfOk result (TellsLeft C.placed (F.view files.new) file self.new) }
        ensures waits { result ≡ Ok More → Waits self.new }
        ensures on { result ≡ Ok More → reach self.old < reach self.new }
        ensures bound { reach self.new ≤ 2 ^ 30 + 24 + 262160 }
        ensures room { holds self.new ≤ 262160 }
        ensures counts { OnOk result (SameCounts (F.view files.old) (F.view files.new)) }
        ensures failed { IsErrOf result Trouble.Failed → ReadFault (F.view files.old) (F.view files.new) file }
        ensures stays { OnErr result (Waits self.new × (length self.new.held.ready ≡ 0)) }
    {
        match self.take_piece(files, file) {
            Ok(0) => Ok(self.told_last()),
            Ok(_) => Ok(self.pass_on()),
            Err(trouble) => Err(trouble),
        }
    }

    /// Moves the next bytes of what becomes of the file's to the front of `into`, and says how many: bytes of whole records, or what
    /// stands behind the last of them. 0 for an `into` that isn't empty says that the file is at its end and no byte is held. It takes
    /// what it needs from `files` by reads of at most 65,536 bytes: each byte that was taken is given or held, and at most 262,160 are
    /// held. After an error no byte was given, those that were taken stay, and no record stands whole in them that was not given before.
    /// `Failed` comes only where the count of read faults of the file's part rose, `NoMemory` only from `files`. Does not allocate itself.
    pub fn read<F: Files>(
        &mut self,
        files: &mut F,
        file: u32,
        into: &mut [u8],
    ) -> Result<usize, Trouble>
        requires there { IsSome ((F.view files.old).part file) }
        ensures room { holds self.new ≤ 262160 }
        ensures count { IfOk result (λ n. n ≤ length into.new) }
        ensures read { IfOk result (λ n. HasRead C.placed (F.view files.old) (F.view files.new) file (take n into.new) self.old self.new) }
        ensures counts { OnOk result (SameCounts (F.view files.old) (F.view files.new)) }
        ensures end { IfOk result (λ n. n ≡ 0 → 0 < length into.new → IsAtEnd (F.view files.new) file × (holds self.new ≡ 0)) }
        ensures refused { OnErr result (HasRead C.placed (F.view files.old) (F.view files.new) file [] self.old self.new) }
        ensures given_all { OnErr result (HasGivenAll self.new) }
        ensures failed { IsErrOf result Trouble.Failed → ReadFault (F.view files.old) (F.view files.new) file }
    {
        match self.prepare(files, file) {
            Ok(()) => Ok(self.window.give(into)),
            Err(trouble) => Err(trouble),
        }
    }
}
