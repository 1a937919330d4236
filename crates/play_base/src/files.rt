// The files of a play: each call's effect is stated on what the object tells.
ghost use Rattle.std.specs.Prelude.{◌≡◌, ◌⊎◌, ◌<◌, ◌≤◌, ℕ, length, take, Some, IsSome, IfOk, OnErr, OnOk, IsErrOf};
ghost use Rattle.play_base.specs.View.{View, TellsLeft, Rose, SameCounts, Unchanged, Opened, Created, Took, Wrote, Said, ReadFault, WriteFault, IsMissed, IsAtEnd};

use crate::Trouble;

/// Files of one play. The `view` is what contracts know of an object: the bytes under each name, the part and the name
/// of each file that it opened or created, what each has left to read, the text printed so far (`said`), and for each
/// part a count of read faults and one of write faults. A part is a number below 16. Each call changes only what it
/// names here, and the counts. An object that tells anything tells what every one of its files has left (`told`).
///
/// Every call may return `NoMemory`. After any error nothing has changed but counts, which never fall. A call that
/// succeeds leaves every count as it was, but for a `write` that moves nothing of a piece that isn't empty: so an object
/// that met a fault in a call answers `Failed` in it. A count saturates at 2^64 − 1; there "rose" holds of every call.
pub trait Files {
    ghost view: { Self → View };

    ghost told: { (files : Self) → TellsLeft (view files) };

    /// A file that this object did not have before, which has the bytes under the name left to read. `Failed` comes only
    /// where the part's count of read faults rose in this call, or where the name is told not to be there and no count
    /// rose. Where no number is left for a file, the answer is `NoMemory`.
    fn open(&mut self, part: u8, name: &str) -> Result<u32, Trouble>
        requires { part < 16 }
        ensures opened { IfOk result (λ file. Opened (view self.old) (view self.new) part name.now file) }
        ensures counts { OnOk result (SameCounts (view self.old) (view self.new)) }
        ensures refused { OnErr result (Unchanged (view self.old) (view self.new)) }
        ensures failed { IsErrOf result Trouble.Failed →
            Rose ((view self.old).read_faults part) ((view self.new).read_faults part)
            ⊎ IsMissed (view self.old) (view self.new) name.now };

    /// A file that this object did not have before, which writes the name and has nothing left to read. The name is then
    /// there and empty; what older files of that name have left is no longer told. `Failed` comes only where the part's
    /// count of write faults rose in this call. Where no number is left for a file, the answer is `NoMemory`.
    fn create(&mut self, part: u8, name: &str) -> Result<u32, Trouble>
        requires { part < 16 }
        ensures created { IfOk result (λ file. Created (view self.old) (view self.new) part name.now file) }
        ensures counts { OnOk result (SameCounts (view self.old) (view self.new)) }
        ensures refused { OnErr result (Unchanged (view self.old) (view self.new)) }
        ensures failed { IsErrOf result Trouble.Failed →
            Rose ((view self.old).write_faults part) ((view self.new).write_faults part) };

    /// Moves the next bytes of what the file has left to the front of `into`, and says how many. 0 for an `into` that
    /// isn't empty is the end of the file. `file` was answered by this object. `Failed` comes only where the count of
    /// read faults of its part rose in this call.
    fn read(&mut self, file: u32, into: &mut [u8]) -> Result<usize, Trouble>
        requires { IsSome ((view self.old).part file) }
        ensures count { IfOk result (λ n. n ≤ length into.new) }
        ensures took { IfOk result (λ n. Took (view self.old) (view self.new) file (take n into.new)) }
        ensures counts { OnOk result (SameCounts (view self.old) (view self.new)) }
        ensures end { IfOk result (λ n. n ≡ 0 → 0 < length into.new → IsAtEnd (view self.new) file) }
        ensures refused { OnErr result (Unchanged (view self.old) (view self.new)) }
        ensures failed { IsErrOf result Trouble.Failed → ReadFault (view self.old) (view self.new) file };

    /// Appends a front of the bytes to those under the file's name, and says how long it was. An answer of 0 for a piece
    /// that isn't empty comes only where the count of write faults of the file's part rose in this call. `file` was
    /// answered by this object. What other files of that name have left is no longer told. `Failed` comes only where
    /// the count of write faults of the file's part rose in this call.
    fn write(&mut self, file: u32, bytes: &[u8]) -> Result<usize, Trouble>
        requires { IsSome ((view self.old).part file) }
        ensures count { IfOk result (λ n. n ≤ length bytes.now) }
        ensures wrote { IfOk result (λ n. Wrote (view self.old) (view self.new) file (take n bytes.now)) }
        ensures counts { IfOk result (λ n. 0 < n ⊎ (length bytes.now ≡ 0) → SameCounts (view self.old) (view self.new)) }
        ensures none { IfOk result (λ n. n ≡ 0 → 0 < length bytes.now → WriteFault (view self.old) (view self.new) file) }
        ensures refused { OnErr result (Unchanged (view self.old) (view self.new)) }
        ensures failed { IsErrOf result Trouble.Failed → WriteFault (view self.old) (view self.new) file };

    /// Prints the whole text. `Failed` comes only where part 0's count of write faults rose in this call.
    fn say(&mut self, text: &[u8]) -> Result<(), Trouble>
        ensures said { OnOk result (Said (view self.old) (view self.new) text.now) }
        ensures counts { OnOk result (SameCounts (view self.old) (view self.new)) }
        ensures refused { OnErr result (Unchanged (view self.old) (view self.new)) }
        ensures failed { IsErrOf result Trouble.Failed →
            Rose ((view self.old).write_faults 0) ((view self.new).write_faults 0) };
}
