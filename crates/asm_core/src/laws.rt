// What follows from the definitions, in the words of their users. A law does nothing when it runs.
ghost use Rattle.std.specs.Prelude.{◌≡◌, ◌↔◌, ◌+◌, ◌-◌, ◌*◌, ◌/◌, ◌%◌, ◌^◌, ◌<◌, ◌≤◌, ℕ, List, ◌++◌, Some, Ok, Err, length, slice_index};
ghost use Rattle.std.specs.Prelude.{◌==◌};
ghost use Rattle.std.specs.List.{All, list_any};
ghost use Rattle.ka10_table.specs.Rows.{row_of};
ghost use Rattle.asm_core.specs.Names.{names, opcode_of};
ghost use Rattle.asm_core.specs.Rows.{has_name};
ghost use Rattle.asm_core.specs.declared.line.AsmFault.{AsmFault as AFault};
ghost use Rattle.asm_core.specs.declared.line.Line.{Line as ALine};
ghost use Rattle.asm_core.specs.declared.line.Placed.{Placed as APlaced};
ghost use Rattle.asm_core.specs.declared.line.Statement.{Statement as AStatement};
ghost use Rattle.asm_core.specs.Faults.{AreLines, IsFirstFault};
ghost use Rattle.asm_core.specs.Grammar.{instruction};
ghost use Rattle.asm_core.specs.Listing.{AreInSpace, listing};
ghost use Rattle.asm_core.specs.Places.{assembled, character, lines_of, outcome, packed};
ghost use Rattle.asm_core.specs.Words.{AreApart, BeginsAnew, IsClosed, IsInstruction, instruction_word};

/// A text is read as lines exactly where each is right behind those before it and the last has its line
/// feed; and it has a fault in its lines exactly where the lines before are right and the next one has
/// that fault.
pub fn first_fault_decides()
    ensures lines { (text : List ℕ) (lines : List ALine) → (lines_of text ≡ Ok lines) ↔ AreLines text lines }
    ensures fault { (text : List ℕ) (fault : AFault) → (lines_of text ≡ Err fault) ↔ IsFirstFault text fault }
{}

/// The operands of an instruction are an accumulator, an indirect bit, an index register and an address;
/// its word is 2^27 times the opcode, plus 2^23 times the accumulator, 2^22 times the bit, 2^18 times the
/// register, and the address; and each comes back from the word.
pub fn instructions_have_fields()
    ensures written { (op : ℕ) (operands : List ℕ) (s : AStatement) → instruction op operands ≡ Some s → IsInstruction op s }
    ensures back { (op : ℕ) (ac : ℕ) (i : ℕ) (x : ℕ) (y : ℕ) → op < 512 → ac < 16 → i < 2 → x < 16 → y < 2 ^ 18
        → (instruction_word op ac i x y / 2 ^ 27 ≡ op) × (instruction_word op ac i x y / 2 ^ 23 % 2 ^ 4 ≡ ac) × (instruction_word op ac i x y / 2 ^ 22 % 2 ≡ i)
        × (instruction_word op ac i x y / 2 ^ 18 % 2 ^ 4 ≡ x) × (instruction_word op ac i x y % 2 ^ 18 ≡ y) × (instruction_word op ac i x y < 2 ^ 36) }
{}

/// The words of ASCIZ are as many as hold the characters and one zero at least; each has five characters
/// of the text from the left, zeros behind its end, and a last bit of 0.
pub fn characters_come_back()
    ensures count { (text : List ℕ) (n : ℕ) → length (packed n text) ≡ n }
    ensures room { (text : List ℕ) → let n = length text / 5 + 1 in (length text + 1 ≤ 5 * n) × (5 * n ≤ length text + 5) }
    ensures back { (text : List ℕ) (n : ℕ) (k : ℕ) (j : ℕ) → k < n → j < 5 → slice_index (packed n text) k / 2 ^ (29 - 7 * j) % 2 ^ 7 ≡ character text (5 * k + j) }
    ensures last { (text : List ℕ) (n : ℕ) (k : ℕ) → k < n → slice_index (packed n text) k % 2 ≡ 0 }
{}

/// A program behind another that begins with a LOC without a label, where neither uses a symbol of the
/// other, gives the words of the one and then those of the other.
pub fn programs_join()
    ensures { (xs : List ALine) (ys : List ALine) → BeginsAnew ys → AreApart xs ys → IsClosed xs → IsClosed ys → assembled (xs ++ ys) ≡ assembled xs ++ assembled ys }
{}

/// Words at addresses are a program: the text that has a LOC and a WORD for each of them gives just them.
pub fn listings_are_read()
    ensures { (program : List APlaced) → AreInSpace program → outcome (listing program) ≡ Ok program }
{}

/// Each name of an instruction means its opcode, so that no two are the same; and an opcode has a name
/// exactly where its row of the table is neither illegal nor one that a program handles itself.
pub fn rows_have_names()
    ensures each { All (λ p. opcode_of p.0 ≡ Some p.1) names }
    ensures rows { (op : ℕ) → op < 512 → list_any (λ p. p.1 == op) names ≡ has_name (row_of op).family }
{}
