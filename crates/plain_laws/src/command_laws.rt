// What the definitions of the commands of the monitor say, in the words of those who use them. A law does nothing when it runs.
ghost use Rattle.std.specs.Prelude.{◌≡◌, ◌<◌, ℕ, List, [], ◌∷◌, codes, true, false, None, Some, IsSome};
ghost use Rattle.std.specs.FinMap as map;
ghost use Rattle.machine_names.specs.declared.character.TheConstants.{CARRIAGE_RETURN, LINE_FEED, PROMPT};
ghost use Rattle.machine_names.specs.declared.names.PageName.{PageName as APageName};
ghost use Rattle.machine_names.specs.declared.names.TheConstants.{SPACE_PAGES};
ghost use Rattle.machine_names.specs.declared.names.Tty.{Tty as ATty};
ghost use Rattle.machine_names.specs.Bounds.{IsTerminal};
ghost use Rattle.machine_names.specs.Orders.{FilePage};
ghost use Rattle.plain_files.specs.OpenFiles.{OpenFile};
ghost use Rattle.plain_pages.specs.FilePages.{without_file};
ghost use Rattle.plain_pages.specs.PlainPages.{NamedPages};
ghost use Rattle.plain_model.specs.declared.fork.Fork.{Fork as AFork};
ghost use Rattle.plain_model.specs.FileCalls.{times_held};
ghost use Rattle.plain_model.specs.State.{PlainJob, PlainState};
ghost use Rattle.plain_model.specs.Unit.{printed};
ghost use Rattle.plain_laws.specs.CommandLaws.{BeginsProgram, IsCommand, LeavesNothing, Tells, line_done, page_of_file, page_of_fork, without_line};
ghost use Rattle.plain_laws.specs.MappedLaws.{KeepsPage, WritesAll};
ghost use Rattle.plain_laws.specs.TypeLaws.{typed};
ghost use Rattle.plain_laws.specs.Whole.{IsWhole};

use plain_typing::Command;

/// RUN of a file that has its first page begins the program in it: the top fork is alone, with the pages of the file in its
/// map, to be read and executed, and begins at the right half of word 120 octal; the file stays as it was. It does so
/// whatever the program writes into its pages: a write makes a copy. RUN is refused where no file has the name, and where the
/// file has no first page.
pub fn programs_are_run_from_files()
    ensures begins { (s : PlainState) (t : ATty) (j : PlainJob) (name : List ℕ) (f : AFork) → IsWhole s → IsCommand s t j (Command.Run name) → IsSome (map.get s.pages.files (page_of_file name 0)) → map.get s.forks j.top ≡ Some f
        → ((line_done s t).items ≡ printed t (CARRIAGE_RETURN ∷ LINE_FEED ∷ [])) × BeginsProgram s (line_done s t).state t j name f }
    ensures copies { (s u : PlainState) (t : ATty) (j : PlainJob) (name : List ℕ) (f : AFork) (page : ℕ) (n : APageName) (q : NamedPages) (words : List (ℕ × ℕ)) (at : FilePage (List ℕ)) → IsWhole u → IsTerminal t → BeginsProgram s u t j name f
        → page < SPACE_PAGES → map.get s.pages.files (page_of_file name page) ≡ Some n → WritesAll u.pages q t (page_of_fork j.top page) words → KeepsPage u.pages q at }
    ensures no_file { (s : PlainState) (t : ATty) (j : PlainJob) (name : List ℕ) → IsCommand s t j (Command.Run name) → map.contains_key s.files name ≡ false → Tells s t j (codes "?NO FILE") }
    ensures no_program { (s : PlainState) (t : ATty) (j : PlainJob) (name : List ℕ) → IsCommand s t j (Command.Run name) → map.contains_key s.files name ≡ true → map.get s.pages.files (page_of_file name 0) ≡ None → Tells s t j (codes "?NO PROGRAM") }
{}

/// LOGOUT leaves nothing of the job: no fork, no map, no JFN, and no page that no other job and no file names. All else stays;
/// and what is typed behind it is lost.
pub fn nothing_is_left_of_who_logs_out()
    ensures nothing { (s : PlainState) (t : ATty) (j : PlainJob) → IsWhole s → IsCommand s t j Command.Logout → ((line_done s t).items ≡ printed t (CARRIAGE_RETURN ∷ LINE_FEED ∷ [])) × LeavesNothing s (line_done s t).state t }
    ensures lost { (s : PlainState) (t : ATty) (j : PlainJob) (more : List ℕ) → IsWhole s → IsCommand s t j Command.Logout → typed s t (CARRIAGE_RETURN ∷ more) ≡ line_done s t }
{}

/// DELETE is refused where a JFN of any job stands for the file, and where no file has the name, and then changes nothing.
/// Else it removes the file, with its pages there, and nothing else.
pub fn files_in_use_are_not_deleted()
    ensures busy { (s : PlainState) (t : ATty) (j k : PlainJob) (name : List ℕ) (u n : ℕ) (i : OpenFile) → IsWhole s → IsCommand s t j (Command.Delete name) → map.get s.jobs u ≡ Some k → map.get k.jfns n ≡ Some i → i.file ≡ name → Tells s t j (codes "?FILE BUSY") }
    ensures no_file { (s : PlainState) (t : ATty) (j : PlainJob) (name : List ℕ) → IsCommand s t j (Command.Delete name) → map.contains_key s.files name ≡ false → Tells s t j (codes "?NO FILE") }
    ensures deleted { (s : PlainState) (t : ATty) (j : PlainJob) (name : List ℕ) → IsCommand s t j (Command.Delete name) → map.contains_key s.files name ≡ true → times_held s.jobs name ≡ 0
        → line_done s t ≡ record { state = record (without_line s t j) { pages = without_file s.pages name; files = map.remove s.files name }; items = printed t (CARRIAGE_RETURN ∷ LINE_FEED ∷ PROMPT ∷ []) } }
{}
