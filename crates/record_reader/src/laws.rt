//! What the reading of a record comes to.
ghost use Rattle.std.specs.Prelude.{◌≡◌, ◌++◌, ℕ, List, Option};
ghost use Rattle.script_texts.specs.declared.event.Step.{Step as AStep};
ghost use Rattle.script_texts.specs.RecordLines.{RecordLine, entries_told, said_all};
ghost use Rattle.record_reader.specs.Verdicts.{BeginsWith, ReadsAs, Verdict, whole};
ghost use Rattle.record_reader.specs.Versions.{CanBeRead, lines_of_record, size_told, whole_record};

/// Read to its end, a text gives one list of lines and one verdict: it is whole, or has a first bad line, or is too long,
/// and never two of these. Whoever has read some of its lines has read the first of them.
pub fn one_reading()
    ensures once { (text : List ℕ) (ls ms : List RecordLine) (v w : Verdict) → ReadsAs text ls v → ReadsAs text ms w → (ls ≡ ms) × (v ≡ w) }
    ensures fronts { (text rest : List ℕ) (read lines : List RecordLine) (v : Verdict) → BeginsWith text read rest → ReadsAs text lines v → (more : List RecordLine) × (lines ≡ read ++ more) }
{}

/// The record of a run that is done, of either version, is the text of lines that tell its entries and the drum's size again, and within its
/// limits it reads as these, to its end.
pub fn records_read_back()
    ensures text { (size : Option ℕ) (entries : List AStep) (reads writes : ℕ) → said_all (lines_of_record size entries reads writes) ≡ whole_record size entries reads writes }
    ensures reads { (size : Option ℕ) (entries : List AStep) (reads writes : ℕ) → CanBeRead size entries reads writes → ReadsAs (whole_record size entries reads writes) (lines_of_record size entries reads writes) whole }
    ensures entries { (size : Option ℕ) (entries : List AStep) (reads writes : ℕ) → entries_told (lines_of_record size entries reads writes) ≡ entries }
    ensures size { (size : Option ℕ) (entries : List AStep) (reads writes : ℕ) → size_told (lines_of_record size entries reads writes) ≡ size }
{}
