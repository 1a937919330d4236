// The statistics of a play.
ghost use Rattle.std.specs.Prelude.{◌≡◌, ◌≤◌, ◌<◌, ◌∷◌, ◌++◌, ◌^◌, [], true, All, IfOk, length, map};
ghost use Rattle.csv.specs.Writing.{default_writer, row_text, writer_under};
ghost use Rattle.play_text.specs.Ready.{IsReady};
ghost use Rattle.play_text.specs.Statistics.{IsCountable, count_row, stats_header, stats_of, sum_of};

use crate::names::Names;
use crate::rows::{write_row, writer_over};
use altq_model::Counts;
use csv::Writer;
use itoa::Buffer;
use play_base::NoMemory;
use std::alloc::Global;

// The header row.
fn stats_header() -> &'static [u8]
    ensures { result.now ≡ stats_header }
{
    b"class,arrived,arrivedbytes,raised,sent,sentbytes,full,early,forced\n"
}

// The sums of counts.
fn sums(counts: &[Counts]) -> Counts
    requires few { length counts.now ≤ 256 }
    requires bound { All IsCountable counts.now }
    ensures { result ≡ sum_of counts.now }
{
    let mut sum = Counts {
        arrived: 0,
        arrived_bytes: 0,
        raised: 0,
        sent: 0,
        sent_bytes: 0,
        full: 0,
        early: 0,
        forced: 0,
    };
    for i in 0..counts.len() {
        let more = counts[i];
        sum.arrived += more.arrived;
        sum.arrived_bytes += more.arrived_bytes;
        sum.raised += more.raised;
        sum.sent += more.sent;
        sum.sent_bytes += more.sent_bytes;
        sum.full += more.full;
        sum.early += more.early;
        sum.forced += more.forced;
    }
    sum
}

// Writes a row of nine fields; false where memory ran out. All are in one array, which `csv` writes, so they have one lifetime.
fn write_fields<'a>(
    writer: &mut Writer<Vec<u8>>,
    name: &'a str,
    arrived: &'a str,
    arrived_bytes: &'a str,
    raised: &'a str,
    sent: &'a str,
    sent_bytes: &'a str,
    full: &'a str,
    early: &'a str,
    forced: &'a str,
) -> bool
    requires { IsReady writer.old }
    ensures ready { result ≡ true → IsReady writer.new }
    ensures text { result ≡ true → (writer_under writer.new).items ≡ (writer_under writer.old).items ++ row_text default_writer
        (name.now ∷ arrived.now ∷ arrived_bytes.now ∷ raised.now ∷ sent.now ∷ sent_bytes.now ∷ full.now ∷ early.now ∷ forced.now ∷ []) }
{
    let fields = [
        name.as_bytes(),
        arrived.as_bytes(),
        arrived_bytes.as_bytes(),
        raised.as_bytes(),
        sent.as_bytes(),
        sent_bytes.as_bytes(),
        full.as_bytes(),
        early.as_bytes(),
        forced.as_bytes(),
    ];
    write_row(writer, &fields)
}

// Writes the row of counts under a name; false where memory was wanting.
fn write_counts(writer: &mut Writer<Vec<u8>>, name: &str, counts: &Counts) -> bool
    requires { IsReady writer.old }
    ensures ready { result ≡ true → IsReady writer.new }
    ensures text { result ≡ true → (writer_under writer.new).items ≡ (writer_under writer.old).items ++ count_row name.now counts.now }
{
    let (mut arrived, mut arrived_bytes, mut raised) = (
        Buffer::new(),
        Buffer::new(),
        Buffer::new(),
    );
    let (mut sent, mut sent_bytes) = (Buffer::new(), Buffer::new());
    let (mut full, mut early, mut forced) = (Buffer::new(), Buffer::new(), Buffer::new());
    write_fields(
        writer,
        name,
        arrived.format(counts.arrived),
        arrived_bytes.format(counts.arrived_bytes),
        raised.format(counts.raised),
        sent.format(counts.sent),
        sent_bytes.format(counts.sent_bytes),
        full.format(counts.full),
        early.format(counts.early),
        forced.format(counts.forced),
    )
}

/// The statistics of a play: a header row, a row for each class of `names` with its counts, at the same place, and a row `*` with their
/// sums. There are as many counts as names, and none of their numbers is above 2^41. The only error is lack of memory. Costs the
/// length of the text.
pub fn stats_text(alloc: Global, names: &Names, counts: &[Counts]) -> Result<Vec<u8>, NoMemory>
    requires each { length counts.now ≡ length names.now }
    requires bound { All IsCountable counts.now }
    ensures { IfOk result (λ text. text.items ≡ stats_of names.now counts.now) }
{
    let mut text = Vec::new(alloc);
    text.extend_from_slice(stats_header())?;
    let mut writer = writer_over(text);
    for i in 0..names.len() as usize {
        if !write_counts(&mut writer, names.name_at(i), &counts[i]) {
            return Err(NoMemory);
        }
    }
    if !write_counts(&mut writer, "*", &sums(counts)) {
        return Err(NoMemory);
    }
    match writer.into_inner() {
        Ok(text) => Ok(text),
        Err(_) => Err(NoMemory),
    }
}
