// The sample record of document 01, "Record and listing": five little-endian u32, then the samples.
// The bytes are only read. A size is tested against the limit before any product is made of it, so
// that no bytes make one overflow.

#![tactic(auto)]

ghost use Rattle.std.specs.Prelude.{◌≡◌, ◌<◌};
ghost use Rattle.sample_record.specs.Record.{sample_count, record_of};

use little_endian::word_at;
use numbering::Numbering;
use refusals::Refusal;

// What the header of a good record asks for.
#[derive(Clone, Copy, Debug, PartialEq, Eq)]
pub struct Header {
    pub size: u32,
    pub numbering: Numbering,
}

// The samples of a grid of this size.
fn sample_count(n: u64) -> u64
    requires { n < 65536 }
    ensures { result ≡ sample_count n }
{
    n * n * (n + 1)
}

// What a record holds whose size may be 2 to `limit`, or the first of the refusals in document 01's order.
// The limit is 128 for the library and 7 for the listing program; it is a u16, so that no number of samples
// passes 2^48.
pub fn record_in(bytes: &[u8], limit: u16) -> Result<Header, Refusal>
    ensures { result ≡ record_of limit bytes.now }
{
    if bytes.len() < 20 {
        return Err(Refusal::Malformed(bytes.len() as u64));
    }
    if word_at(bytes, 0) != 1 {
        return Err(Refusal::Malformed(0));
    }
    let size = word_at(bytes, 4);
    if size < 2 || size > u32::from(limit) {
        return Err(Refusal::Size);
    }
    let numbering = Numbering::try_from(word_at(bytes, 8))?;
    let count = u64::from(word_at(bytes, 12));
    if count != sample_count(u64::from(size)) {
        return Err(Refusal::SampleCount);
    }
    if word_at(bytes, 16) != 20 {
        return Err(Refusal::Malformed(16));
    }
    if bytes.len() as u64 != 20 + 4 * count {
        return Err(Refusal::Malformed(20));
    }
    Ok(Header { size, numbering })
}
