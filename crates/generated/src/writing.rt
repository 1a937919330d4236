// Writing the capture of the packets in pieces.
ghost use Rattle.std.specs.Prelude.{◌≡◌, ◌≤◌, ◌<◌, ◌+◌, ◌*◌, ◌^◌, ◌++◌, [], ℕ, List, vec_len, IsSome, OnOk, OnErr, IsErrOf};
ghost use Rattle.capture_model.specs.Written.{record_text};
ghost use Rattle.play_base.specs.View.{SameCounts, Wrote, WroteFront, WriteFault};
ghost use Rattle.generated.specs.Generating.{Continues, StoppedIn, WroteFrontOf, WroteMore, record_of};
ghost use Rattle.generated.specs.Packets.{generated_capture, most_packets};

use crate::generator::{GeneratedPacket, Generator};
use pcap_files::{head_bytes, record_head};
use play_base::{Files, Trouble, write_all};
use std::alloc::{AllocError, Global};

/// The records of a piece, of 58 bytes each: as many as 65,536 bytes have room for.
const PIECE: u32 = 65_536 / 58;

// Adds the record of a packet to a piece.
fn add_record(piece: &mut Vec<u8>, packet: &GeneratedPacket) -> Result<(), AllocError>
    requires { packet.now.at < 2 ^ 32 * 10 ^ 9 }
    ensures long { OnOk result (vec_len piece.new ≡ vec_len piece.old + 58) }
    ensures behind { OnOk result (piece.new.items ≡ piece.old.items ++ record_text (record_of packet.now)) }
{
    let head = record_head(packet.at, packet.frame.len() as u32, packet.len);
    piece.extend_from_slice(&head)?;
    piece.extend_from_slice(&packet.frame)
}

// Adds the records of the next packets to an empty piece.
#[tactic(auto, using(crate::proofs::PacketLemmas::continues_at, crate::proofs::PacketLemmas::continues_by))]
fn add_records(generator: &mut Generator, piece: &mut Vec<u8>, more: u32) -> Result<(), AllocError>
    requires few { generator.old.made + more ≤ most_packets }
    requires empty { piece.old.items ≡ [] }
    ensures behind { OnOk result (Continues generator.old.seed generator.old.made piece.new.items (generator.old.made + more)) }
    ensures long { OnOk result (vec_len piece.new ≡ 58 * more) }
    ensures seed { OnOk result (generator.new.seed ≡ generator.old.seed) }
    ensures made { OnOk result (generator.new.made ≡ generator.old.made + more) }
{
    let mut added = 0;
    while added < more {
        let packet = generator.next();
        add_record(piece, &packet)?;
        added += 1;
    }
    Ok(())
}

// Writes the records of the next packets.
fn write_records<F: Files>(
    files: &mut F,
    file: u32,
    generator: &mut Generator,
    piece: &mut Vec<u8>,
    more: u32,
) -> Result<(), Trouble>
    requires there { IsSome ((F.view files.old).part file) }
    requires few { generator.old.made + more ≤ most_packets }
    requires short { more ≤ 1129 }
    ensures wrote { OnOk result (WroteMore (F.view files.old) (F.view files.new) file generator.old.seed generator.old.made (generator.old.made + more)) }
    ensures front { OnErr result (StoppedIn (F.view files.old) (F.view files.new) file generator.old.seed generator.old.made (generator.old.made + more)) }
    ensures failed { IsErrOf result Trouble.Failed → WriteFault (F.view files.old) (F.view files.new) file }
    ensures counts { OnOk result (SameCounts (F.view files.old) (F.view files.new)) }
    ensures piece { OnOk result (vec_len piece.new ≤ 65536) }
    ensures seed { OnOk result (generator.new.seed ≡ generator.old.seed) }
    ensures made { OnOk result (generator.new.made ≡ generator.old.made + more) }
{
    piece.clear();
    let Ok(()) = add_records(generator, piece, more) else {
        return Err(Trouble::NoMemory);
    };
    match write_all(files, file, piece.as_slice()) {
        Ok(()) => Ok(()),
        Err(trouble) => Err(trouble),
    }
}

/// Writes the capture of the first `count` packets of a seed, at most 1,000,000, to a file that is there, in pieces of at most
/// 65,536 bytes; then no count rose. After an error a front of it was written. `Failed` comes only where the count of write faults of the file's part
/// rose in this call, `NoMemory` where there was no memory.
#[tactic(auto, using(play_base::proofs::ViewLaws::same_trans))]
pub fn write_capture<F: Files>(
    alloc: Global,
    files: &mut F,
    file: u32,
    seed: u64,
    count: u32,
) -> Result<(), Trouble>
    requires there { IsSome ((F.view files.old).part file) }
    requires few { count ≤ most_packets }
    ensures wrote { OnOk result (Wrote (F.view files.old) (F.view files.new) file (generated_capture seed count)) }
    ensures counts { OnOk result (SameCounts (F.view files.old) (F.view files.new)) }
    ensures front { OnErr result (WroteFrontOf (F.view files.old) (F.view files.new) file (generated_capture seed count)) }
    ensures failed { IsErrOf result Trouble.Failed → WriteFault (F.view files.old) (F.view files.new) file }
{
    match write_all(files, file, &head_bytes()) {
        Ok(()) => {}
        Err(trouble) => return Err(trouble),
    }
    let mut generator = Generator::new(seed);
    let mut piece = Vec::new(alloc);
    let mut made = 0;
    while made < count {
        let more = (count - made).min(PIECE);
        match write_records(files, file, &mut generator, &mut piece, more) {
            Ok(()) => {}
            Err(trouble) => return Err(trouble),
        }
        made += more;
    }
    Ok(())
}
