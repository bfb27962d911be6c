//! What the definitions of the texts come to.
ghost use Rattle.std.specs.Prelude.{◌≡◌, ℕ, List};
ghost use Rattle.script_texts.specs.Entries.{EntriesOf, FitsRecord};
ghost use Rattle.script_texts.specs.declared.event.Step.{Step};
ghost use Rattle.script_texts.specs.Texts.{record_text};

/// Different entries, or different counts, have different records: a text is the record of one list of entries
/// at most.
pub fn records_apart()
    ensures record { (ss ts : List Step) (reads writes reads' writes' : ℕ) → FitsRecord ss reads writes → FitsRecord ts reads' writes'
        → record_text ss reads writes ≡ record_text ts reads' writes' → (ss ≡ ts) × (reads ≡ reads') × (writes ≡ writes') }
    ensures entries { (text : List ℕ) (ss ts : List Step) → EntriesOf text ss → EntriesOf text ts → ss ≡ ts }
{}
