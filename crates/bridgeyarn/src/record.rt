// The answer about a sample record.
ghost use Rattle.std.specs.Prelude.{◌≡◌};
ghost use Rattle.sample_record.specs.Record.{record_of};
ghost use Rattle.record_answer.specs.Record.{record_answer};

use record_answer::RecordAnswer;

// What the bytes of a sample record hold, or the first refusal in document 01's order. The library takes
// sizes to 128. The bytes are only read.
#[unsafe(no_mangle)]
pub extern "C" fn bridgeyarn_record(bytes: &[u8]) -> RecordAnswer
    ensures { result ≡ record_answer (record_of 128 bytes.now) }
{
    record_answer::record_answer(bytes, 128)
}
