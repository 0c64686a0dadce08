// The samples of a record, out of its bytes.

#![tactic(auto)]

ghost use Rattle.std.specs.Prelude.{◌≡◌};
ghost use Rattle.record_samples.specs.Samples.{copied};

use words_read::copy_words;

// Copies the samples of a record into the front of a buffer: as many as the bytes hold whole and as
// the buffer has room for. The rest of the buffer stays as it was.
pub fn copy_samples(bytes: &[u8], buffer: &mut [f32])
    ensures { buffer.new ≡ copied bytes.now buffer.old }
{
    let samples = bytes.get(20..).unwrap_or(&[]);
    let count = buffer.len().min(samples.len() / 4);
    copy_words(samples, &mut buffer[..count]);
}
