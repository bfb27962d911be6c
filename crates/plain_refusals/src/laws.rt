// What the definitions say of refusals, in the words of those who use them. A law does nothing when it runs.
ghost use Rattle.std.specs.Prelude.{◌≡◌, ◌≢◌, ◌≤◌, ℕ, List, All, false, true, length};
ghost use Rattle.machine_names.specs.declared.names.ForkName.{ForkName as AForkName};
ghost use Rattle.machine_names.specs.declared.names.Tty.{Tty as ATty};
ghost use Rattle.plain_pages.specs.PlainPages.{NamedPages};
ghost use Rattle.plain_typing.specs.declared.command.Command.{Command as ACommand};
ghost use Rattle.plain_typing.specs.declared.typed.TheConstants.{CONTROL_C, MOST_STORED};
ghost use Rattle.plain_typing.specs.declared.typed.Typed.TheVariants.{Dropped};
ghost use Rattle.plain_typing.specs.Characters.{read_as};
ghost use Rattle.plain_typing.specs.Typing.{fate_of};
ghost use Rattle.machine_names.specs.declared.character.TheConstants.{LINE_END};
ghost use Rattle.script_texts.specs.declared.event.Event.{Event as AnEvent};
ghost use Rattle.script_texts.specs.declared.event.Refusal.{Refusal as ARefusal};
ghost use Rattle.script_texts.specs.declared.status.WaitOn.{WaitOn as AWaitOn};
ghost use Rattle.plain_units.specs.declared.channel.TheConstants.{ILLEGAL_INSTRUCTION};
ghost use Rattle.plain_units.specs.declared.registers.Regs.{Regs as ARegs};
ghost use Rattle.plain_units.specs.declared.unit.TheConstants.{MOST_REFERENCES};
ghost use Rattle.plain_units.specs.Instructions.{instruction};
ghost use Rattle.plain_units.specs.Steps.{Ending, Progress, Steps, begun, done};
ghost use Rattle.plain_units.specs.Blocks.{steps_on};
ghost use Rattle.plain_model.specs.declared.call.TheConstants.{NO_HANDLE, NO_INFERIOR, NO_JFN, PMAP};
ghost use Rattle.plain_model.specs.declared.fork.Fork.{Fork as AFork};
ghost use Rattle.plain_model.specs.Calls.{with_error, with_wait};
ghost use Rattle.plain_model.specs.Events.{outer};
ghost use Rattle.plain_model.specs.State.{PlainJob, PlainState};
ghost use Rattle.plain_model.specs.TypeEvents.{line_of};
ghost use Rattle.plain_model.specs.Unit.{stopped, unit};
ghost use Rattle.plain_laws.specs.CommandLaws.{IsCommand, Tells};
ghost use Rattle.plain_laws.specs.JfnLaws.{Lives, turn_of};
ghost use Rattle.plain_laws.specs.TypeLaws.{HasJob};
ghost use Rattle.plain_laws.specs.Whole.{IsWhole};
ghost use Rattle.plain_refusals.specs.Budgets.{GoesOverOnePage, TakesOneByte, asked_for, byte_numbers};
ghost use Rattle.plain_refusals.specs.CallAnswers.{LeavesAllBut, LeavesOthers, MakesCall, answer_of, fails, refuses, trapped, traps, waits, with_failure};
ghost use Rattle.plain_refusals.specs.CallTable.{CallRow, allows, call_rows, is_call};
ghost use Rattle.plain_refusals.specs.CommandRefusals.{IsLost, IsRefused as IsRefusedWith};
ghost use Rattle.plain_refusals.specs.EventRefusals.{ChangesNothing, IsGranted, IsRefused, tells_none};
ghost use Rattle.plain_refusals.specs.NamedNone.{AllAnswer, NamesAnother, NamesNoFork, NamesNoInferior, NamesNoJfn, NamesNothing, inferior_numbers, jfn_numbers, own_numbers, transfer_numbers};

use plain_model::TerminalMode;

/// An event is refused exactly where one of its causes is there, and for the first of them: then nothing changes, and one item
/// tells the cause. Else no item tells of a refusal.
pub fn refused_events_change_nothing()
    ensures refused { (s : PlainState) (e : AnEvent) (cause : ARefusal) → IsRefused s e cause → ChangesNothing s cause (outer s e) }
    ensures granted { (s : PlainState) (e : AnEvent) → IsGranted s e → All tells_none (outer s e).items }
{}

/// A command of the monitor that is refused changes nothing but that its line is the job's no longer; it says why, in the words of
/// the first cause that is there, in a line before the prompt. A character for which there is no room changes nothing at all.
pub fn refused_commands_leave_all_but_their_line()
    ensures refused { (s : PlainState) (t : ATty) (j : PlainJob) (c : ACommand) (why : List ℕ) → IsCommand s t j c → IsRefusedWith s j c why → Tells s t j why }
    ensures line { (s : PlainState) (t : ATty) (j : PlainJob) (c : ℕ) → HasJob s t j → j.mode ≡ TerminalMode.Command → MOST_STORED ≤ length j.line → read_as c ≢ CONTROL_C → read_as c ≢ LINE_END → IsLost s t c }
    ensures input { (s : PlainState) (t : ATty) (j : PlainJob) (c : ℕ) → HasJob s t j → j.mode ≡ TerminalMode.Program → fate_of (line_of j) (read_as c) ≡ Dropped → IsLost s t c }
{}

/// A call that is refused, that waits or that traps leaves all as it was but its own fork, and where a trap forces that, its end is told
/// as any other is. By the first of two returns accumulator 1, the program counter and the last error are others; with one return the
/// last error is another, and channel 15 is posted; who waits has another status, and knows to which moment it sleeps; and a trap posts
/// its channel. A unit more is counted. An end that is told leaves pages, files, JFNs, serials, the clock and the forks of other jobs, and of
/// those of the job all but whether they wait and which channels are pending.
pub fn refused_calls_leave_all_else()
    ensures failed { (s : PlainState) (f : AFork) (number code : ℕ) → MakesCall s f number → answer_of s f number ≡ fails code → LeavesAllBut s f (with_failure f code) }
    ensures refused { (s : PlainState) (f : AFork) (number code : ℕ) → MakesCall s f number → answer_of s f number ≡ refuses code → unit s f.name ≡ trapped s (with_error f code) ILLEGAL_INSTRUCTION }
    ensures waits { (s : PlainState) (f : AFork) (number : ℕ) (on : AWaitOn) → MakesCall s f number → answer_of s f number ≡ waits on → LeavesAllBut s f (with_wait f on) }
    ensures trapped { (s : PlainState) (f : AFork) (number channel : ℕ) → MakesCall s f number → answer_of s f number ≡ traps channel → unit s f.name ≡ trapped s f channel }
    ensures stopped { (s : PlainState) (f : AFork) → IsWhole s → LeavesOthers s (stopped s f).state f.name }
{}

/// Each call is answered only as the table of calls has it: by one of its errors, as its returns have them; by a wait of its own; and
/// by a trap only where it refers to words or makes a page. A number that is none of these traps as an illegal instruction.
pub fn calls_are_answered_as_the_table_has_it()
    ensures calls { (s : PlainState) (f : AFork) → All (λ (row : CallRow). allows row (answer_of s f row.number) ≡ true) call_rows }
    ensures others { (s : PlainState) (f : AFork) (number : ℕ) → is_call number ≡ false → answer_of s f number ≡ traps ILLEGAL_INSTRUCTION }
{}

/// Who names no fork is refused for that by each call of a fork, who names one that is no inferior by each call of an inferior, and who
/// names no JFN by each call of a JFN, by its own returns.
pub fn who_names_none_is_refused()
    ensures forks { (s : PlainState) (f : AFork) → NamesNoFork s f → AllAnswer s f inferior_numbers (refuses NO_HANDLE) × AllAnswer s f own_numbers (refuses NO_HANDLE) }
    ensures inferiors { (s : PlainState) (f g : AFork) → NamesNoInferior s f g → AllAnswer s f inferior_numbers (refuses NO_INFERIOR) }
    ensures others { (s : PlainState) (f g : AFork) → NamesAnother s f g → AllAnswer s f own_numbers (refuses NO_INFERIOR) }
    ensures jfns { (s : PlainState) (f : AFork) → NamesNoJfn s f → AllAnswer s f jfn_numbers (fails NO_JFN) }
    ensures transfers { (s : PlainState) (f : AFork) → NamesNothing s f → AllAnswer s f transfer_numbers (refuses NO_JFN) }
{}

/// A unit asks for at most 16 references, whatever its instruction is and however its words point to one another.
pub fn units_make_few_references()
    ensures unit { (p : NamedPages) (f : AForkName) (regs : ARegs) → asked_for f (instruction regs) (begun p regs.ac) ≤ MOST_REFERENCES }
    ensures any { (p : NamedPages) (f : AForkName) (regs : ARegs) (steps : Steps) → asked_for f steps (begun p regs.ac) ≤ MOST_REFERENCES }
{}

/// A unit of BIN, BOUT, PBIN, SIN, SOUT or PSOUT takes or gives one byte at most, however long its string is: each JFN stands where it
/// stood or at the next byte, and of the characters that are stored for a job the oldest may be gone.
pub fn units_of_calls_take_one_byte()
    ensures { (s : PlainState) (f : AFork) → Lives s f → All (λ number. TakesOneByte s (turn_of s f number)) byte_numbers }
{}

/// A unit of PMAP goes over one page at most, however many it is to go over: no entry of a map but one is another, and no page of a file
/// but one.
pub fn units_of_pmap_go_over_one_page()
    ensures { (s : PlainState) (f : AFork) → GoesOverOnePage s.pages (turn_of s f PMAP).parts.pages }
{}
