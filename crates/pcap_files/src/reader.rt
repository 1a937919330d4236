// Reads the records of a capture one by one.
ghost use Rattle.std.specs.Prelude.{◌≡◌, ◌≤◌, ◌<◌, ◌+◌, ◌++◌, ◌^◌, ◌⊎◌, ℕ, List, [], max, length, None, Some, Err, IsSome, IfOk, IfErr, IfSome, IfNone, OnOk, OnErr, IsErrOf};
ghost use Rattle.play_base.specs.View.{ReadFault, SameCounts};
ghost use Rattle.pcap_files.specs.Ahead.{TookSome};
ghost use Rattle.pcap_files.specs.Reading.{Represents, Answers, AreAllTaken, Counts, Holds, HoldsNext, IsCutOff, Stays, IsWhole, IsFault, IsHeadFault, SameBut, IsTaken, IsCut, told_by, told_of};

use crate::ahead::Ahead;
use crate::fault::fault_of;
use crate::form::{Head, damage_at};
use crate::progress::Progress;
use crate::stand::{RECORD_HEAD, Stand, stand_at};
use crate::{CaptureFault, Found, Record};
use capture_model::DamageKind;
use play_base::Files;
use std::alloc::Global;

// Bytes of a file's header.
const FILE_HEAD: usize = 24;

/// Reads a capture from an opened file. It takes pieces of at most 65,536 bytes from it, and holds no more than a piece
/// and a record at once.
#[derive(Drop)]
pub struct Reader {
    file: u32,
    head: Head,
    progress: Progress,
    ahead: Ahead,
    fault: Option<CaptureFault>,
}

impl Reader {
    /// Reads the header of a capture: of the bytes `first`, which were taken of the file before, and what it has left. `Damage` comes only where the header fails a test, and no
    /// reader is answered where it does; `Read` comes only where the count of read faults of the file's part rose in this
    /// call, and `Limit` never; then no more than a part of the header was taken. When a reader is answered, at most 65,535 bytes past
    /// the header were taken, and no count rose. `file` was
    /// answered by `files`.
    pub fn start<F: Files>(
        alloc: Global,
        files: &mut F,
        file: u32,
        first: &[u8],
    ) -> Result<Reader, CaptureFault>
        requires there { IsSome ((F.view files.old).part file) }
        requires few { length first.now ≤ 24 }
        ensures stands { IfOk result (λ reader. (rest : List ℕ) → (F.view files.old).left file ≡ Some rest →
            Represents (F.view files.new) reader (first.now ++ rest) []) }
        ensures file { IfOk result (λ reader. reader.file ≡ file) }
        ensures sound { IfOk result (λ reader. reader.fault ≡ None) }
        ensures damaged { IfErr result (λ fault. (rest : List ℕ) → (F.view files.old).left file ≡ Some rest →
            IsHeadFault fault (first.now ++ rest)) }
        ensures read { IsErrOf result CaptureFault.Read → ReadFault (F.view files.old) (F.view files.new) file }
        ensures cut { IsErrOf result CaptureFault.Read → (rest : List ℕ) → (F.view files.old).left file ≡ Some rest →
            AreAllTaken (F.view files.new) file (first.now ++ rest) [] }
        ensures counts { OnOk result (SameCounts (F.view files.old) (F.view files.new)) }
        ensures some { TookSome (F.view files.old) (F.view files.new) file }
    {
        let Ok(mut ahead) = Ahead::new(alloc, first) else {
            return Err(CaptureFault::NoMemory);
        };
        if let Err(trouble) = ahead.fill(files, file, FILE_HEAD) {
            return Err(fault_of(trouble));
        }
        let head = match Head::read(ahead.as_slice()) {
            Ok(head) => head,
            Err(damage) => return Err(CaptureFault::Damage(damage)),
        };
        ahead.pass(FILE_HEAD);
        Ok(Reader {
            file,
            head,
            progress: Progress {
                count: 0,
                place: 24,
            },
            ahead,
            fault: None,
        })
    }

    /// The next record, or none where the file ends at a record's place. `Damage` and `Limit` come only where the bytes at
    /// that place fail a test, and neither a record nor the end is answered where they do; `Read` comes only where the
    /// count of read faults of the file's part rose in this call, and then the records answered are all that stand complete in
    /// the bytes that were taken. After any fault the reader answers that fault again and takes nothing. When a record is
    /// answered, at most 65,535 bytes past it were taken, and none where it stood in those taken before. Between this
    /// reader's calls nothing else may read from the file. Takes time in proportion to the bytes taken and the record's, and
    /// constant time for a record that stood in those taken before: its bytes are not copied, and `lend` gives them until the next call.
    #[inline(always)]
    pub fn next<F: Files>(&mut self, files: &mut F) -> Result<Option<Found>, CaptureFault>
        requires there { IsSome ((F.view files.old).part self.old.file) }
        ensures record { IfOk result (λ answer. IfSome answer (λ found.
            Answers (F.view files.old) (F.view files.new) self.old self.new (told_by self.new found))) }
        ensures counted { IfOk result (λ answer. IfSome answer (λ found. Counts self.old self.new (told_by self.new found))) }
        ensures holds { IfOk result (λ answer. IfSome answer (λ found. Holds self.new found)) }
        ensures end { IfOk result (λ answer. IfNone answer (IsWhole (F.view files.old) self.old)) }
        ensures none { IfOk result (λ answer. IfNone answer (Stays (F.view files.old) (F.view files.new) self.old self.new)) }
        ensures fault { IfErr result (λ fault. IsFault (F.view files.old) self.old fault) }
        ensures stays { OnErr result (Stays (F.view files.old) (F.view files.new) self.old self.new) }
        ensures read { IsErrOf result CaptureFault.Read →
            ReadFault (F.view files.old) (F.view files.new) self.old.file ⊎ (self.old.fault ≡ Some CaptureFault.Read) }
        ensures cut { IsErrOf result CaptureFault.Read → self.old.fault ≡ None → IsCutOff (F.view files.old) (F.view files.new) self.old }
        ensures counts { OnOk result (SameCounts (F.view files.old) (F.view files.new)) }
        ensures ahead { HoldsNext self.old → F.view files.new ≡ F.view files.old }
        ensures again { (fault : CaptureFault) → self.old.fault ≡ Some fault → result ≡ Err fault }
        ensures idle { IsSome self.old.fault → F.view files.new ≡ F.view files.old }
        ensures kept { IfErr result (λ fault. self.new.fault ≡ Some fault) }
        ensures sound { OnOk result (self.new.fault ≡ None) }
        ensures file { self.new.file ≡ self.old.file }
        ensures some { TookSome (F.view files.old) (F.view files.new) self.old.file }
    {
        if let Some(fault) = self.fault {
            return Err(fault);
        }
        match self.take_next(files) {
            Ok(found) => Ok(found),
            Err(fault) => {
                self.fault = Some(fault);
                Err(fault)
            }
        }
    }

    /// The record that the last call of `next` found, with its bytes, which stay where they were read to. Does not allocate, in constant
    /// time.
    #[inline(always)]
    pub fn lend(&self, found: Found) -> Record<'_>
        requires { Holds self.now found }
        ensures { told_of result ≡ told_by self.now found }
    {
        Record {
            number: found.number,
            stamp: found.stamp,
            len: found.len,
            bytes: self.ahead.last(found.captured as usize),
        }
    }

    // The next record of a reader that has answered no fault.
    #[inline(always)]
    fn take_next<F: Files>(&mut self, files: &mut F) -> Result<Option<Found>, CaptureFault>
        requires there { IsSome ((F.view files.old).part self.old.file) }
        requires sound { self.old.fault ≡ None }
        ensures record { IfOk result (λ answer. IfSome answer (λ found.
            Answers (F.view files.old) (F.view files.new) self.old self.new (told_by self.new found))) }
        ensures counted { IfOk result (λ answer. IfSome answer (λ found. Counts self.old self.new (told_by self.new found))) }
        ensures holds { IfOk result (λ answer. IfSome answer (λ found. Holds self.new found)) }
        ensures end { IfOk result (λ answer. IfNone answer (IsWhole (F.view files.old) self.old)) }
        ensures none { IfOk result (λ answer. IfNone answer (Stays (F.view files.old) (F.view files.new) self.old self.new)) }
        ensures fault { IfErr result (λ fault. IsFault (F.view files.old) self.old fault) }
        ensures same { OnErr result (SameBut self.old self.new) }
        ensures read { IsErrOf result CaptureFault.Read → ReadFault (F.view files.old) (F.view files.new) self.old.file }
        ensures cut { IsErrOf result CaptureFault.Read → IsCutOff (F.view files.old) (F.view files.new) self.old }
        ensures counts { OnOk result (SameCounts (F.view files.old) (F.view files.new)) }
        ensures ahead { HoldsNext self.old → F.view files.new ≡ F.view files.old }
        ensures sound { OnOk result (self.new.fault ≡ None) }
        ensures file { self.new.file ≡ self.old.file }
        ensures some { TookSome (F.view files.old) (F.view files.new) self.old.file }
    {
        if let Err(trouble) = self.ahead.fill(files, self.file, RECORD_HEAD) {
            return Err(fault_of(trouble));
        }
        let place = self.progress.place;
        match stand_at(self.head, self.progress, self.ahead.as_slice()) {
            Stand::End => Ok(None),
            Stand::Limit => Err(CaptureFault::Limit),
            Stand::Damaged(kind) => Err(CaptureFault::Damage(damage_at(u64::from(place), kind))),
            Stand::Headed {
                stamp,
                captured,
                original,
            } => {
                let whole = RECORD_HEAD + captured as usize;
                if let Err(trouble) = self.ahead.fill(files, self.file, whole) {
                    return Err(fault_of(trouble));
                }
                match self.take_record(stamp, captured, original) {
                    Ok(found) => Ok(Some(found)),
                    Err(fault) => Err(fault),
                }
            }
        }
    }

    // Takes the record with this header from the bytes ahead, where it stands whole.
    #[inline(always)]
    fn take_record(
        &mut self,
        stamp: u64,
        captured: u32,
        original: u32,
    ) -> Result<Found, CaptureFault>
        requires counted { self.old.progress.count < 4000000 }
        requires placed { self.old.progress.place + 16 + captured ≤ 2 ^ 30 }
        requires early { stamp < 2 ^ 62 }
        requires short { max captured original ≤ 262144 }
        requires some { 1 ≤ max captured original }
        ensures taken { IfOk result (λ found. IsTaken self.old self.new found stamp captured original) }
        ensures cut { IfErr result (λ fault. IsCut fault self.old.progress.place self.old.ahead.waiting captured) }
        ensures same { OnErr result (SameBut self.old self.new) }
    {
        let Progress { count, place } = self.progress;
        let whole = RECORD_HEAD + captured as usize;
        if self.ahead.as_slice().len() < whole {
            let damage = damage_at(u64::from(place), DamageKind::ShortRecord);
            return Err(CaptureFault::Damage(damage));
        }
        self.ahead.pass(whole);
        self.progress = Progress {
            count: count + 1,
            place: place + 16 + captured,
        };
        Ok(Found {
            number: u64::from(count) + 1,
            stamp,
            len: captured.max(original),
            captured,
        })
    }
}
