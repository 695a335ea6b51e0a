//! Laws over the definitions.

ghost use Rattle.std.specs.Prelude.{◌≡◌, ◌≢◌, ◌⊎◌, ◌≤◌, ℕ, List, [], ◌∷◌, ◌++◌, length, All, Bool, true, Option, Result, Err};
ghost use Rattle.afdx_pcap.specs.declared.fault.PcapFault.{PcapFault};
ghost use Rattle.afdx_pcap.specs.declared.fault.PcapFault.TheVariants.{Memory};
ghost use Rattle.afdx_pcap.specs.Record.{Record, IsWithinLimit};
ghost use Rattle.afdx_pcap.specs.declared.format.Format.{Format};
ghost use Rattle.afdx_pcap.specs.Capture.{Begins, after, Holds, IsCapture};
ghost use Rattle.afdx_pcap.specs.Fault.{IsFault, IsEarlyFault, last_stamp};
ghost use Rattle.afdx_pcap.specs.Reading.{AreReadUpTo, Answers, HasTaken, IsNext, IsSound, Taking, taking_on};
ghost use Rattle.afdx_pcap.specs.Inner.ReadBack.{WrittenTextsReadBack};
ghost use Rattle.afdx_pcap.specs.Text.{record_text, capture_text, AreReadable};

/// Proves that what is written is a capture of the records that were written, if these can be read.
pub fn what_is_written_is_a_capture()
    ensures { (rs : List Record) → AreReadable 0 rs → All IsWithinLimit rs
        → IsCapture (capture_text rs) rs }
{}

/// Proves that, if what is written is a capture, it is one of the records that were written, and of no others.
pub fn written_texts_read_back()
    ensures { WrittenTextsReadBack }
{}

/// Proves that the text with one more record is the text so far, followed by the record's.
pub fn one_more_record_is_appended()
    ensures { (rs : List Record) (r : Record) → capture_text (rs ++ r ∷ []) ≡ capture_text rs ++ record_text r }
{}

/// Proves that each file is the capture of one list of records, or has one fault.
pub fn each_file_has_one_reading()
    ensures one_list { (bytes : List ℕ) (rs qs : List Record) → IsCapture bytes rs → IsCapture bytes qs
        → rs ≡ qs }
    ensures one_fault { (bytes : List ℕ) (d e : PcapFault) → IsFault bytes d → IsFault bytes e
        → d ≡ e }
    ensures not_both { (bytes : List ℕ) (rs : List Record) (e : PcapFault) → IsCapture bytes rs
        → IsFault bytes e → ⊥ }
    ensures either { (bytes : List ℕ)
        → ((rs : List Record) × IsCapture bytes rs) ⊎ ((e : PcapFault) × IsFault bytes e) }
{}

/// Proves that an early fault stays the fault, whatever bytes come after.
pub fn early_faults_stay()
    ensures { (bytes more : List ℕ) (fault : PcapFault) → IsEarlyFault bytes fault
        → IsEarlyFault (bytes ++ more) fault }
{}

/// Proves that the whole records at the start of some bytes stay if more bytes come, and that no other list of as many records is
/// there.
pub fn whole_records_stay()
    ensures stay { (bytes more rest : List ℕ) (rs : List Record) → Holds bytes rs rest
        → Holds (bytes ++ more) rs (rest ++ more) }
    ensures unique { (bytes rest others : List ℕ) (rs qs : List Record) → Holds bytes rs rest
        → Holds bytes qs others → length rs ≡ length qs → rs ≡ qs }
{}

/// Proves that, if bytes were read up to a rest, the record that the rest begins with is one more. If more bytes come, all are
/// read as far as before, and the new ones are at the end of the rest.
pub fn rests_are_read_on()
    ensures next { (f : Format) (bytes rest : List ℕ) (rs : List Record) (r : Record) → AreReadUpTo f bytes rs rest
        → Begins f (last_stamp 0 rs) rest r → AreReadUpTo f bytes (rs ++ r ∷ []) (after r rest) }
    ensures stays { (f : Format) (bytes more rest : List ℕ) (rs : List Record) → AreReadUpTo f bytes rs rest
        → AreReadUpTo f (bytes ++ more) rs (rest ++ more) }
{}

/// Proves that records that are taken one by one are the first ones of the bytes, in order, each once, also if more bytes come;
/// that their stamps do not fall; and that, if nothing is wrong after them, they are the capture.
pub fn taken_records_are_the_first()
    ensures joins { (t : Taking) (rs : List Record) (r : Record) → HasTaken t rs → IsNext t.bytes t.given r
        → HasTaken (taking_on t) (rs ++ r ∷ []) }
    ensures stays { (t : Taking) (more : List ℕ) (rs : List Record) → HasTaken t rs
        → HasTaken (record t { bytes = t.bytes ++ more }) rs }
    ensures in_order { (t : Taking) (rs : List Record) (r : Record) → HasTaken t rs → IsNext t.bytes t.given r
        → last_stamp 0 rs ≤ r.stamp }
    ensures latest { (rs : List Record) (r : Record) → last_stamp 0 (rs ++ r ∷ []) ≡ r.stamp }
    ensures ends { (t : Taking) (rs : List Record) → HasTaken t rs → IsSound t.bytes t.given true
        → IsCapture t.bytes rs }
{}

/// Proves that the records that were taken are the first ones of the capture, if the bytes are one.
pub fn taken_records_begin_the_capture()
    ensures { (t : Taking) (taken all : List Record) → HasTaken t taken → IsCapture t.bytes all
        → (later : List Record) × (all ≡ taken ++ later) }
{}

/// Proves that, but for out of memory, there is one answer after so many records, whoever gives it.
pub fn each_answer_is_the_only_one()
    ensures { (bytes : List ℕ) (n : ℕ) (closed : Bool) (a b : Result (Option Record) PcapFault)
        → Answers bytes n closed a → Answers bytes n closed b → a ≢ Err Memory → b ≢ Err Memory → a ≡ b }
{}
