// The answer about a sample record as it crosses the C boundary: the cause and the place beside the size and the
// numbering.

#![tactic(auto)]

ghost use Rattle.std.specs.Prelude.{◌≡◌};
ghost use Rattle.sample_record.specs.Record.{record_of};
ghost use Rattle.record_answer.specs.Record.{record_answer};

use refusals::Refusal;
use sample_record::Header;

// The C interface: a field that the cause does not use is 0.
#[repr(C)]
#[derive(Clone, Copy)]
pub struct RecordAnswer {
    pub cause: u32,
    pub place: u64,
    pub size: u32,
    pub numbering: u32,
}

impl From<Result<Header, Refusal>> for RecordAnswer {
    ghost from_gives = { λ found answer. answer ≡ record_answer found };

    fn from(found: Result<Header, Refusal>) -> Self {
        match found {
            Ok(header) => RecordAnswer {
                cause: 0,
                place: 0,
                size: header.size,
                numbering: header.numbering.word(),
            },
            Err(refusal) => RecordAnswer {
                cause: refusal.cause(),
                place: refusal.place(),
                size: 0,
                numbering: 0,
            },
        }
    }
}

// What the bytes of a sample record of size 2 to `limit` hold, or the first refusal in document 01's
// order. The bytes are only read.
pub fn record_answer(bytes: &[u8], limit: u16) -> RecordAnswer
    ensures { result ≡ record_answer (record_of limit bytes.now) }
{
    RecordAnswer::from(sample_record::record_in(bytes, limit))
}
