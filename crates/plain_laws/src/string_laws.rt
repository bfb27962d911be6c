// What the definitions of the calls on strings say, in the words of those who use them. A law does nothing when it runs.
ghost use Rattle.std.specs.Prelude.{◌≡◌, ◌≢◌, ◌⊎◌, ◌+◌, ◌-◌, ◌%◌, ◌^◌, ◌<◌, ◌≤◌, ℕ, [], ◌∷◌, List, length, map, true, All, None, Some};
ghost use Rattle.word36.specs.Bytes.{loaded, size};
ghost use Rattle.machine_names.specs.Bounds.{IsOwner};
ghost use Rattle.plain_files.specs.Bytes.{IsByteSize, most_bytes};
ghost use Rattle.plain_files.specs.OpenFiles.{OpenFile};
ghost use Rattle.plain_pages.specs.PlainPages.{NamedPages};
ghost use Rattle.plain_pages.specs.References.{granted, in_file, reference};
ghost use Rattle.plain_pages.specs.WholePages.{AreWhole};
ghost use Rattle.plain_units.specs.Deeds.{in_ac};
ghost use Rattle.plain_units.specs.declared.channel.TheConstants.{END_OF_FILE};
ghost use Rattle.plain_units.specs.declared.registers.Regs.{Regs as ARegs};
ghost use Rattle.plain_model.specs.declared.call.TheConstants.{PSOUT, SIN, SOUT, TERMINAL_INPUT, TERMINAL_OUTPUT};
ghost use Rattle.plain_model.specs.declared.fork.Fork.{Fork as AFork};
ghost use Rattle.plain_model.specs.ByteCalls.{files_reaching, input_at};
ghost use Rattle.plain_model.specs.Calls.{behind_call, with_ac};
ghost use Rattle.plain_model.specs.Forks.{with_regs, with_status};
ghost use Rattle.plain_model.specs.Interrupts.{posted};
ghost use Rattle.plain_model.specs.MapCalls.{is_read, is_written};
ghost use Rattle.plain_model.specs.State.{PlainState};
ghost use Rattle.plain_model.specs.StringCalls.{behind_byte};
ghost use Rattle.plain_model.specs.Unit.{parts_of};
ghost use Rattle.script_texts.specs.declared.status.ForkStatus.TheVariants.{Wait};
ghost use Rattle.script_texts.specs.declared.status.WaitOn.TheVariants.{Input};
ghost use Rattle.plain_laws.specs.ByteLaws.{StandTogether, behind_first_return, byte_of, end_of, page_of_jfn, with_byte};
ghost use Rattle.plain_laws.specs.JfnLaws.{Lives, NamesJfn, jfn_named, turn_of};
ghost use Rattle.plain_laws.specs.StringLaws.{HasPagesOf, IsInSpace, IsInWord, IsOfString, IsString, NamesOnce, ReadsNext, TakesNext, TakesNextCharacter, WritesNext, byte_pointed, bytes_of, counting, next_of, spot_pointed, string_at, with_byte_pointed, with_bytes, with_string};
ghost use Rattle.plain_laws.specs.Whole.{IsWhole};

use machine_names::Kind;

/// The next byte of a string is the one that its pointer names once it is incremented: in the word at its address, in a page
/// of the fork's space that the fork may read. A byte has no more bits than its pointer says.
pub fn strings_are_read_by_their_pointers()
    ensures byte { (s : PlainState) (f : AFork) (ac : ℕ) (q : NamedPages) → IsInSpace f (next_of f ac) → reference s.pages (spot_pointed f (next_of f ac)) Kind.Read f.name.tty ≡ granted q
        → ReadsNext s f ac (byte_pointed q f (next_of f ac)) q }
    ensures bits { (pointer word : ℕ) → loaded pointer word < 2 ^ size pointer }
{}

/// A turn of PSOUT prints the low 7 bits of the next byte of its string, and its pointer stands at that byte then: the next turn
/// prints the byte behind it. At a byte that is 0 it ends, and changes nothing but the program counter. All else stays, but
/// for the pages that its references make.
pub fn strings_are_printed()
    ensures printed { (s : PlainState) (f : AFork) (byte : ℕ) (q : NamedPages) → Lives s f → ReadsNext s f 1 byte q → byte ≢ 0
        → turn_of s f PSOUT ≡ record { parts = record (parts_of s) { pages = q }; caller = Some (with_regs f (with_ac f.body.regs 1 (next_of f 1))); out = Some (byte % 128) } }
    ensures ended { (s : PlainState) (f : AFork) (q : NamedPages) → Lives s f → ReadsNext s f 1 0 q
        → turn_of s f PSOUT ≡ record { parts = record (parts_of s) { pages = q }; caller = Some (behind_first_return f f.body.regs); out = None } }
{}

/// A turn of SOUT writes the low bits of the next byte of its string as the byte at which its JFN stands, as BOUT does, or prints
/// them at the terminal; the pointer and the count go on. With a count of 0, a byte that is 0 ends the string before it, and
/// nothing changes but the program counter. All else stays, but for the pages that its references make.
pub fn strings_are_written()
    ensures written { (s : PlainState) (f : AFork) (j : OpenFile) (byte : ℕ) (q r : NamedPages) → IsWhole s → Lives s f → NamesJfn s f j → is_written j ≡ true → j.at < most_bytes j.size
        → ReadsNext s f 2 byte q → IsOfString f byte → reference q (in_file (page_of_jfn j)) Kind.Write f.name.tty ≡ granted r → WritesNext s f j byte r }
    ensures ended { (s : PlainState) (f : AFork) (j : OpenFile) (q : NamedPages) → IsWhole s → Lives s f → NamesJfn s f j → is_written j ≡ true → j.at < most_bytes j.size
        → ReadsNext s f 2 0 q → in_ac f.body.regs 3 ≡ 0
        → turn_of s f SOUT ≡ record { parts = record (parts_of s) { pages = q }; caller = Some (behind_first_return f f.body.regs); out = None } }
    ensures printed { (s : PlainState) (f : AFork) (byte : ℕ) (q : NamedPages) → Lives s f → jfn_named f ≡ TERMINAL_OUTPUT → ReadsNext s f 2 byte q → IsOfString f byte
        → turn_of s f SOUT ≡ record { parts = record (parts_of s) { pages = q }; caller = Some (with_regs f (behind_byte f.body.regs (next_of f 2) byte)); out = Some (byte % 128) } }
    ensures print_ended { (s : PlainState) (f : AFork) (q : NamedPages) → Lives s f → jfn_named f ≡ TERMINAL_OUTPUT → ReadsNext s f 2 0 q → in_ac f.body.regs 3 ≡ 0
        → turn_of s f SOUT ≡ record { parts = record (parts_of s) { pages = q }; caller = Some (behind_first_return f f.body.regs); out = None } }
{}

/// A turn of SIN deposits the byte at which its JFN stands, or the oldest of the characters that are stored, as the next byte of its
/// string, in a page that the fork may read and write; the pointer and the count go on, and the JFN stands at the next byte,
/// or the other characters are still stored. At the end of the file the call ends, and its channel is posted; where no character
/// is stored the fork waits, and makes the call again. All else stays.
pub fn strings_are_taken()
    ensures taken { (s : PlainState) (f : AFork) (j : OpenFile) (q r : NamedPages) → IsWhole s → Lives s f → IsOwner f.name.tty → NamesJfn s f j → is_read j ≡ true → j.at < end_of s j
        → IsInSpace f (next_of f 2) → reference s.pages (spot_pointed f (next_of f 2)) Kind.Read f.name.tty ≡ granted q → reference q (spot_pointed f (next_of f 2)) Kind.Write f.name.tty ≡ granted r
        → TakesNext s f j (byte_of s.pages j) r }
    ensures end { (s : PlainState) (f : AFork) (j : OpenFile) → IsWhole s → Lives s f → NamesJfn s f j → is_read j ≡ true → end_of s j ≤ j.at
        → turn_of s f SIN ≡ record { parts = parts_of s; caller = Some (posted (behind_first_return f f.body.regs) END_OF_FILE); out = None } }
    ensures character { (s : PlainState) (f : AFork) (c : ℕ) (cs : List ℕ) (q r : NamedPages) → IsWhole s → Lives s f → IsOwner f.name.tty → jfn_named f ≡ TERMINAL_INPUT → input_at s.jobs f.name.tty ≡ c ∷ cs
        → IsInSpace f (next_of f 2) → reference s.pages (spot_pointed f (next_of f 2)) Kind.Read f.name.tty ≡ granted q → reference q (spot_pointed f (next_of f 2)) Kind.Write f.name.tty ≡ granted r
        → TakesNextCharacter s f c r }
    ensures waits { (s : PlainState) (f : AFork) → Lives s f → jfn_named f ≡ TERMINAL_INPUT → input_at s.jobs f.name.tty ≡ []
        → turn_of s f SIN ≡ record { parts = parts_of s; caller = Some (with_status f (Wait Input)); out = None } }
{}

/// SOUT and then SIN give a string again. The byte that SOUT has taken from its string and written at a JFN, SIN takes back by any
/// JFN of the file that is open to be read at that byte, cut to the size of the bytes of both JFNs; and where it is no longer than
/// that, and the bytes of the other string no shorter, it is the same byte in the other string then.
pub fn written_strings_are_taken_back()
    ensures taken { (s u : PlainState) (f g : AFork) (i j : OpenFile) (byte : ℕ) (p q x z : NamedPages) → IsWhole s → IsOwner f.name.tty → NamesJfn s f j → ReadsNext s f 2 byte p
        → reference p (in_file (page_of_jfn j)) Kind.Write f.name.tty ≡ granted q → u.pages ≡ with_byte q j byte → u.files ≡ files_reaching s.files j.file j.size (j.at + 1) → StandTogether i j
        → IsWhole u → Lives u g → IsOwner g.name.tty → NamesJfn u g i → is_read i ≡ true → IsInSpace g (next_of g 2)
        → reference u.pages (spot_pointed g (next_of g 2)) Kind.Read g.name.tty ≡ granted x → reference x (spot_pointed g (next_of g 2)) Kind.Write g.name.tty ≡ granted z
        → TakesNext u g i (byte % 2 ^ j.size) z }
    ensures same { (u : PlainState) (g : AFork) (bits byte : ℕ) (x z : NamedPages) → IsWhole u → IsOwner g.name.tty
        → reference u.pages (spot_pointed g (next_of g 2)) Kind.Read g.name.tty ≡ granted x → reference x (spot_pointed g (next_of g 2)) Kind.Write g.name.tty ≡ granted z
        → byte < 2 ^ bits → bits ≤ size (next_of g 2) → IsInWord (next_of g 2)
        → byte_pointed (with_byte_pointed z g (next_of g 2) (byte % 2 ^ bits)) g (next_of g 2) ≡ byte }
{}

/// So a whole string comes back. Bytes that are written at a JFN one behind another, in pages that the file has and names once, stand
/// so in the file, each cut to the size of the JFN's bytes. Bytes that are deposited one behind another stand so in the string,
/// where no two of its bytes overlap. And a string that goes into a file and from there into a string is the same.
pub fn strings_come_back_whole()
    ensures file { (bytes : List ℕ) (p : NamedPages) (j : OpenFile) → AreWhole p → IsByteSize j.size → NamesOnce p j.file → HasPagesOf p j (length bytes)
        → bytes_of (with_bytes p j bytes) j (length bytes) ≡ map (λ b. b % 2 ^ j.size) bytes }
    ensures string { (bytes : List ℕ) (q : NamedPages) (g : AFork) (pointer : ℕ) → AreWhole q → IsString q g pointer (length bytes)
        → string_at (with_string q g pointer bytes) g pointer (length bytes) ≡ map (λ b. b % 2 ^ size pointer) bytes }
    ensures back { (bytes : List ℕ) (p q : NamedPages) (j : OpenFile) (g : AFork) (pointer : ℕ) → AreWhole p → IsByteSize j.size → NamesOnce p j.file → HasPagesOf p j (length bytes)
        → AreWhole q → IsString q g pointer (length bytes) → All (λ b. b < 2 ^ j.size) bytes → j.size ≤ size pointer
        → string_at (with_string q g pointer (bytes_of (with_bytes p j bytes) j (length bytes))) g pointer (length bytes) ≡ bytes }
{}

/// The count in accumulator 3 says which byte is the last of a string for SIN and SOUT. A count of 0 stays, and a byte that is 0 is the last;
/// a positive one goes down to 0, and the byte that uses it up is the last, or one that is accumulator 4; a negative one goes up
/// to 0, and the byte that uses it up is the last. Behind another byte the call is made again, for the byte behind that.
pub fn strings_end_by_their_counts()
    ensures zero { (regs : ARegs) (pointer byte : ℕ) → in_ac regs 3 ≡ 0 → byte ≢ 0 → behind_byte regs pointer byte ≡ counting regs pointer 0 }
    ensures zero_last { (regs : ARegs) (pointer byte : ℕ) → in_ac regs 3 ≡ 0 → byte ≡ 0 → behind_byte regs pointer byte ≡ behind_call (counting regs pointer 0) }
    ensures positive { (regs : ARegs) (pointer byte : ℕ) → 1 < in_ac regs 3 → in_ac regs 3 < 2 ^ 35 → byte ≢ in_ac regs 4 → behind_byte regs pointer byte ≡ counting regs pointer (in_ac regs 3 - 1) }
    ensures positive_last { (regs : ARegs) (pointer byte : ℕ) → 0 < in_ac regs 3 → in_ac regs 3 < 2 ^ 35 → (in_ac regs 3 ≡ 1) ⊎ (byte ≡ in_ac regs 4)
        → behind_byte regs pointer byte ≡ behind_call (counting regs pointer (in_ac regs 3 - 1)) }
    ensures negative { (regs : ARegs) (pointer byte : ℕ) → 2 ^ 35 ≤ in_ac regs 3 → in_ac regs 3 + 1 < 2 ^ 36 → behind_byte regs pointer byte ≡ counting regs pointer (in_ac regs 3 + 1) }
    ensures negative_last { (regs : ARegs) (pointer byte : ℕ) → in_ac regs 3 + 1 ≡ 2 ^ 36 → behind_byte regs pointer byte ≡ behind_call (counting regs pointer 0) }
{}
