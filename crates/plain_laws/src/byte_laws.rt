// What the definitions of the calls on bytes say, in the words of those who use them. A law does nothing when it runs.
ghost use Rattle.std.specs.Prelude.{◌≡◌, ◌≢◌, ◌+◌, ◌%◌, ◌^◌, ◌<◌, ◌≤◌, ℕ, [], ◌∷◌, List, length, max, true, None, Some, IsSome};
ghost use Rattle.std.specs.FinMap as map;
ghost use Rattle.machine_names.specs.declared.names.Tty.{Tty as ATty};
ghost use Rattle.machine_names.specs.Bounds.{IsOwner};
ghost use Rattle.plain_files.specs.Bytes.{IsByteSize, most_bytes};
ghost use Rattle.plain_files.specs.OpenFiles.{OpenFile};
ghost use Rattle.plain_files.specs.Sizes.{PlainFile, length_in, reaching};
ghost use Rattle.plain_pages.specs.FilePages.{names_of_file};
ghost use Rattle.plain_pages.specs.PlainPages.{NamedPages};
ghost use Rattle.plain_pages.specs.References.{granted, in_file, page_at, reference};
ghost use Rattle.plain_pages.specs.WholePages.{AreWhole};
ghost use Rattle.plain_units.specs.Deeds.{in_ac};
ghost use Rattle.plain_units.specs.declared.channel.TheConstants.{END_OF_FILE};
ghost use Rattle.plain_model.specs.declared.call.TheConstants.{BIN, PBIN, RFPTR, SFPTR, SIZEF, TERMINAL_INPUT};
ghost use Rattle.plain_model.specs.declared.fork.Fork.{Fork as AFork};
ghost use Rattle.plain_model.specs.ByteCalls.{behind_first, byte_page, files_reaching, input_at, is_open, with_input, with_position};
ghost use Rattle.plain_model.specs.Calls.{with_ac};
ghost use Rattle.plain_model.specs.FileCalls.{Jobs};
ghost use Rattle.plain_model.specs.Forks.{with_status};
ghost use Rattle.plain_model.specs.Interrupts.{posted};
ghost use Rattle.plain_model.specs.MapCalls.{ALL_ONES, is_read, is_written};
ghost use Rattle.plain_model.specs.State.{PlainState};
ghost use Rattle.plain_model.specs.Unit.{parts_of};
ghost use Rattle.script_texts.specs.declared.status.ForkStatus.TheVariants.{Wait};
ghost use Rattle.script_texts.specs.declared.status.WaitOn.TheVariants.{Input};
ghost use Rattle.plain_laws.specs.ByteLaws.{ReadsByte, StandTogether, TakesCharacter, Writes, behind_first_return, byte_of, end_of, page_of_jfn, with_byte};
ghost use Rattle.plain_laws.specs.JfnLaws.{Lives, NamesJfn, behind_second, jfn_named, turn_of, with_jfns};
ghost use Rattle.plain_laws.specs.Whole.{IsWhole};

use machine_names::Kind;

/// BOUT writes the low bits of accumulator 2 as the byte at which its JFN stands, in a page that is there or is made; the file
/// reaches behind that byte, the JFN stands at the next, and all else stays. The other bytes of the page stay too, those of
/// the same word as well, and each other page.
pub fn bytes_are_written()
    ensures written { (s : PlainState) (f : AFork) (j : OpenFile) (q : NamedPages) → IsWhole s → Lives s f → NamesJfn s f j → is_written j ≡ true → j.at < most_bytes j.size
        → reference s.pages (in_file (page_of_jfn j)) Kind.Write f.name.tty ≡ granted q → Writes s f j q }
    ensures byte { (p : NamedPages) (i j : OpenFile) (byte : ℕ) → AreWhole p → IsByteSize j.size → IsSome (map.get p.files (page_of_jfn j)) → StandTogether i j
        → byte_of (with_byte p j byte) i ≡ byte % 2 ^ j.size }
    ensures others { (p : NamedPages) (i j : OpenFile) (byte : ℕ) → AreWhole p → IsByteSize j.size → i.file ≡ j.file → i.size ≡ j.size → byte_page i ≡ byte_page j → i.at ≢ j.at
        → byte_of (with_byte p j byte) i ≡ byte_of p i }
    ensures elsewhere { (p : NamedPages) (i j : OpenFile) (byte : ℕ) → page_at p (in_file (page_of_jfn i)) ≢ page_at p (in_file (page_of_jfn j))
        → byte_of (with_byte p j byte) i ≡ byte_of p i }
{}

/// BIN reads the byte at which its JFN stands into accumulator 2, and the JFN stands at the next; that is all. At the end of
/// the file accumulator 2 becomes 0, the JFN stays, and the channel of the end is posted.
pub fn bytes_are_read()
    ensures read { (s : PlainState) (f : AFork) (j : OpenFile) → IsWhole s → Lives s f → NamesJfn s f j → is_read j ≡ true → j.at < end_of s j → ReadsByte s f j (byte_of s.pages j) }
    ensures end { (s : PlainState) (f : AFork) (j : OpenFile) → IsWhole s → Lives s f → NamesJfn s f j → is_read j ≡ true → end_of s j ≤ j.at
        → turn_of s f BIN ≡ record { parts = parts_of s; caller = Some (posted (behind_first_return f (with_ac f.body.regs 2 0)) END_OF_FILE); out = None } }
{}

/// What BOUT has written, BIN reads back, in bytes of every size: by any JFN of the file that is open to be read at that byte.
pub fn bytes_are_read_back()
    ensures { (s u : PlainState) (f g : AFork) (i j : OpenFile) (q : NamedPages) → IsWhole s → IsOwner f.name.tty → NamesJfn s f j
        → reference s.pages (in_file (page_of_jfn j)) Kind.Write f.name.tty ≡ granted q
        → u.pages ≡ with_byte q j (in_ac f.body.regs 2) → u.files ≡ files_reaching s.files j.file j.size (j.at + 1)
        → IsWhole u → Lives u g → NamesJfn u g i → is_read i ≡ true → StandTogether i j → ReadsByte u g i (in_ac f.body.regs 2 % 2 ^ j.size) }
{}

/// SFPTR moves its JFN to the position in accumulator 2, and where that is all ones, behind the last byte of the file. RFPTR
/// tells the position in accumulator 2; and SIZEF tells there the length of the file, in bytes of its own size, and in
/// accumulator 3 how many pages it has. All else stays.
pub fn positions_are_set_and_told()
    ensures set { (s : PlainState) (f : AFork) (j : OpenFile) → Lives s f → NamesJfn s f j → is_open j ≡ true → in_ac f.body.regs 2 ≢ ALL_ONES → in_ac f.body.regs 2 ≤ most_bytes j.size
        → turn_of s f SFPTR ≡ record { parts = with_jfns s f (with_position (jfn_named f) (in_ac f.body.regs 2)); caller = Some (behind_second f f.body.regs); out = None } }
    ensures end { (s : PlainState) (f : AFork) (j : OpenFile) → IsWhole s → Lives s f → NamesJfn s f j → is_open j ≡ true → in_ac f.body.regs 2 ≡ ALL_ONES
        → turn_of s f SFPTR ≡ record { parts = with_jfns s f (with_position (jfn_named f) (end_of s j)); caller = Some (behind_second f f.body.regs); out = None } }
    ensures told { (s : PlainState) (f : AFork) (j : OpenFile) → Lives s f → NamesJfn s f j → is_open j ≡ true
        → turn_of s f RFPTR ≡ record { parts = parts_of s; caller = Some (behind_second f (with_ac f.body.regs 2 j.at)); out = None } }
    ensures size { (s : PlainState) (f : AFork) (j : OpenFile) (g : PlainFile) → Lives s f → NamesJfn s f j → map.get s.files j.file ≡ Some g
        → turn_of s f SIZEF ≡ record { parts = parts_of s; caller = Some (behind_second f (with_ac (with_ac f.body.regs 2 g.length) 3 (length (names_of_file s.pages j.file)))); out = None } }
{}

/// A file reaches as far as the furthest byte that was written: it has as many bytes of a size as it had, or as the last one
/// that is written is from its start.
pub fn files_reach_the_furthest_byte()
    ensures length { (f : PlainFile) (size end : ℕ) → length_in size (reaching size end f) ≡ max (length_in size f) end }
    ensures size { (f : PlainFile) (size end : ℕ) → (reaching size end f).size ≡ size }
{}

/// PBIN, and BIN from the terminal's input, take the characters that are stored in their order: the oldest goes to an
/// accumulator, and the others are left. Where none is stored the fork waits, and makes the call again.
pub fn characters_come_in_their_order()
    ensures pbin { (s : PlainState) (f : AFork) (c : ℕ) (cs : List ℕ) → Lives s f → input_at s.jobs f.name.tty ≡ c ∷ cs → TakesCharacter s f PBIN 1 c }
    ensures bin { (s : PlainState) (f : AFork) (c : ℕ) (cs : List ℕ) → Lives s f → jfn_named f ≡ TERMINAL_INPUT → input_at s.jobs f.name.tty ≡ c ∷ cs → TakesCharacter s f BIN 2 c }
    ensures rest { (jobs : Jobs) (t : ATty) (c : ℕ) (cs : List ℕ) → input_at jobs t ≡ c ∷ cs → input_at (with_input jobs t behind_first) t ≡ cs }
    ensures pbin_waits { (s : PlainState) (f : AFork) → Lives s f → input_at s.jobs f.name.tty ≡ [] → turn_of s f PBIN ≡ record { parts = parts_of s; caller = Some (with_status f (Wait Input)); out = None } }
    ensures bin_waits { (s : PlainState) (f : AFork) → Lives s f → jfn_named f ≡ TERMINAL_INPUT → input_at s.jobs f.name.tty ≡ []
        → turn_of s f BIN ≡ record { parts = parts_of s; caller = Some (with_status f (Wait Input)); out = None } }
{}
