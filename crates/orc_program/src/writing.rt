//! The last step of the program: its text is written.
ghost use Rattle.std.specs.Prelude.{◌≡◌, ◌≢◌, ◌⊎◌};
ghost use Rattle.std.specs.Io.KnownBytes.{Appends};
ghost use Rattle.orc_feed.specs.{Faults.{Rose}, Whole.{AppendsPrefix}};
ghost use Rattle.orc_program.specs.Refusals.{words_refused};

use orc_feed::{Sink, write_all};

/// Writes that the words are refused, and answers the status: 2, or 5 where a write fails.
pub fn refuse_words<K: Sink>(sink: &mut K) -> u8
    ensures statuses { (result ≡ 2) ⊎ (result ≡ 5) }
    ensures written { result ≡ 2 → Appends (K.written sink.old) (K.written sink.new) words_refused }
    ensures cut_short { result ≡ 5 → AppendsPrefix (K.written sink.old) (K.written sink.new) words_refused }
    ensures fault { result ≡ 5 → Rose (K.faults sink.old) (K.faults sink.new) }
    ensures no_fault { result ≢ 5 → K.faults sink.new ≡ K.faults sink.old }
{
    write_text(sink, b"words refused\n", 2)
}

// Writes the text, and answers this status, or 5 where a write failed.
pub(crate) fn write_text<K: Sink>(sink: &mut K, text: &[u8], status: u8) -> u8
    requires { status ≢ 5 }
    ensures statuses { (result ≡ status) ⊎ (result ≡ 5) }
    ensures written { result ≡ status → Appends (K.written sink.old) (K.written sink.new) text.now }
    ensures cut_short { result ≡ 5 → AppendsPrefix (K.written sink.old) (K.written sink.new) text.now }
    ensures fault { result ≡ 5 → Rose (K.faults sink.old) (K.faults sink.new) }
    ensures no_fault { result ≢ 5 → K.faults sink.new ≡ K.faults sink.old }
{
    match write_all(sink, text) {
        Ok(()) => status,
        Err(_) => 5,
    }
}
