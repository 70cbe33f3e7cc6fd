ghost use Rattle.std.specs.Prelude.{◌≡◌, ◌+◌, ◌^◌, ◌<◌, ◌≤◌, List, IfErr, IfOk, OnErr, OnOk, length, Some, ℕ};
ghost use Rattle.std.specs.Io.KnownBytes.{Appends, Consumes, IsAtEnd};
ghost use Rattle.orc_feed.specs.{
  declared.all.ReadAllError.TheVariants.{NoMemory},
  Faults.{CountsFaults, Rose},
  Whole.{AppendsPrefix, TakesAtMost, TakesWhole},
};

use crate::{Sink, Source};
use orc_fault::Failed;
use std::alloc::{AllocError, Global};

/// Why not all bytes of a source were taken.
#[derive(Clone, Copy, Debug, PartialEq, Eq, Drop)]
pub enum ReadAllError {
    Failed,
    NoMemory,
}

impl From<AllocError> for ReadAllError {
    ghost from_gives = { λ _ e. e ≡ NoMemory };

    fn from(_refused: AllocError) -> ReadAllError {
        ReadAllError::NoMemory
    }
}

const CHUNK: usize = 4096;

/// Takes all bytes of a source, or one more than `limit` bytes of it where there are more. A read
/// asks for 4,096 bytes, or for what is missing up to `limit + 1` where that is less. An `Err` has
/// taken some bytes, which are lost.
pub fn read_all<S: Source>(
    alloc: Global,
    source: &mut S,
    limit: u64,
) -> Result<Vec<u8>, ReadAllError>
    requires { limit < 2 ^ 32 }
    ensures bytes { IfOk result (λ v. Consumes (S.left source.old) (S.left source.new) v.items) }
    ensures all { IfOk result (λ v. length v.items ≤ limit → IsAtEnd (S.left source.new)) }
    ensures bound { IfOk result (λ v. length v.items ≤ limit + 1) }
    ensures whole { (bytes : List ℕ) → S.left source.old ≡ Some bytes
        → IfOk result (λ v. TakesWhole limit bytes (S.left source.new) v.items) }

    ensures most { TakesAtMost (limit + 1) (S.left source.old) (S.left source.new) }

    // It ends at the first read that fails, so that no other answer has seen one.
    ensures answered { OnOk result (S.faults source.new ≡ S.faults source.old) }
    ensures memory { IfErr result (λ e. e ≡ ReadAllError.NoMemory → S.faults source.new ≡ S.faults source.old) }
    ensures failed { IfErr result (λ e. e ≡ ReadAllError.Failed
        → Rose (S.faults source.old) (S.faults source.new)) }
{
    let most = limit as usize + 1;
    let mut all = Vec::new(alloc);
    let mut chunk = [0u8; CHUNK];
    while all.len() < most {
        let wanted = CHUNK.min(most - all.len());
        let Ok(count) = source.read(&mut chunk[..wanted]) else {
            return Err(ReadAllError::Failed);
        };
        let at_end = count == 0;
        if at_end {
            return Ok(all);
        }
        all.extend_from_slice(&chunk[..count])?;
    }
    Ok(all)
}

/// Writes all of a text.
///
/// # Errors
///
/// `Failed` where a write failed or took no byte. A beginning of the text may have been written.
pub fn write_all<K: Sink>(sink: &mut K, text: &[u8]) -> Result<(), Failed>
    ensures ok { OnOk result (Appends (K.written sink.old) (K.written sink.new) text.now) }
    ensures err { OnErr result (AppendsPrefix (K.written sink.old) (K.written sink.new) text.now) }
    ensures counted { CountsFaults (K.faults sink.old) (K.faults sink.new) result }
{
    let mut at = 0;
    while at < text.len() {
        let count = sink.write(&text[at..])?;
        if count == 0 {
            return Err(Failed);
        }
        at += count;
    }
    Ok(())
}
