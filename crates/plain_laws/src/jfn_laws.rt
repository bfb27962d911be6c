// What the definitions of the calls on JFNs say, in the words of those who use them. A law does nothing when it runs.
ghost use Rattle.std.specs.Prelude.{◌≡◌, ◌≢◌, ◌<◌, ◌≤◌, ◌==◌, ℕ, [], List, nat_lt, true, false, None, Some};
ghost use Rattle.std.specs.FinMap as map;
ghost use Rattle.word36.specs.Words.{bit};
ghost use Rattle.machine_names.specs.declared.names.PageName.{PageName as APageName};
ghost use Rattle.machine_names.specs.declared.names.TheConstants.{MOST_FILES};
ghost use Rattle.machine_names.specs.FileNames.{file_named};
ghost use Rattle.machine_names.specs.Orders.{FilePage};
ghost use Rattle.plain_files.specs.OpenFiles.{OpenFile, free_jfn, is_free};
ghost use Rattle.plain_files.specs.Sizes.{new_file};
ghost use Rattle.plain_pages.specs.PlainPages.{NamedPages, NumberedPages};
ghost use Rattle.plain_pages.specs.FilePages.{without_file};
ghost use Rattle.plain_pages.specs.Room.{live, uses};
ghost use Rattle.plain_pages.specs.WholePages.{AreWhole};
ghost use Rattle.plain_units.specs.Deeds.{in_ac};
ghost use Rattle.plain_model.specs.declared.call.TheConstants.{GTJFN, OPENF, CLOSF, RLJFN, DELF, NO_JFN, NO_FILE, BAD_NAME, FILES_FULL, JFNS_FULL, FILE_IN_USE};
ghost use Rattle.plain_model.specs.declared.fork.Fork.{Fork as AFork};
ghost use Rattle.plain_model.specs.FileCalls.{held_at, times_held};
ghost use Rattle.plain_model.specs.State.{PlainState};
ghost use Rattle.plain_laws.specs.JfnLaws.{AsksFor, Lives, NamesJfn, Reads, Refuses, Takes, behind_second, jfn_named, jfns_of, turn_of, user_of, with_jfns};

/// GTJFN takes the least JFN that is free to the caller's job, and tells its number, where the text that it reads
/// names a file that is there; with bit 0 of accumulator 1 also one that is not, which is made then. But for pages
/// that it refers to all else stays.
pub fn the_least_free_jfn_is_taken()
    ensures there { (s : PlainState) (f : AFork) (name : List ℕ) (q : NamedPages) (n : ℕ) → Lives s f → AsksFor s f name q → free_jfn (jfns_of s f) ≡ Some n
        → map.contains_key s.files name ≡ true → Takes s f n name q s.files }
    ensures made { (s : PlainState) (f : AFork) (name : List ℕ) (q : NamedPages) (n : ℕ) → Lives s f → AsksFor s f name q → free_jfn (jfns_of s f) ≡ Some n
        → map.contains_key s.files name ≡ false → bit (in_ac f.body.regs 1) 0 ≡ 1 → map.len s.files < MOST_FILES → Takes s f n name q (map.insert s.files name new_file) }
{}

/// A call on JFNs that is refused leaves all but its error: GTJFN where the text names no file, the job has no JFN
/// left, or no file has the name, which is not to be made or for which there is no room; each of the others where the
/// JFN is not held; and DELF where another JFN stands for the file.
pub fn refused_calls_leave_all_but_an_error()
    ensures unnamed { (s : PlainState) (f : AFork) (text : List ℕ) (q : NamedPages) → Lives s f → Reads s f (Some text) q → file_named (user_of s f) [] text ≡ None → Refuses s f GTJFN BAD_NAME }
    ensures endless { (s : PlainState) (f : AFork) (q : NamedPages) → Lives s f → Reads s f None q → Refuses s f GTJFN BAD_NAME }
    ensures all_held { (s : PlainState) (f : AFork) (name : List ℕ) (q : NamedPages) → Lives s f → AsksFor s f name q → free_jfn (jfns_of s f) ≡ None → Refuses s f GTJFN JFNS_FULL }
    ensures absent { (s : PlainState) (f : AFork) (name : List ℕ) (q : NamedPages) (n : ℕ) → Lives s f → AsksFor s f name q → free_jfn (jfns_of s f) ≡ Some n
        → map.contains_key s.files name ≡ false → bit (in_ac f.body.regs 1) 0 ≢ 1 → Refuses s f GTJFN NO_FILE }
    ensures full { (s : PlainState) (f : AFork) (name : List ℕ) (q : NamedPages) (n : ℕ) → Lives s f → AsksFor s f name q → free_jfn (jfns_of s f) ≡ Some n
        → map.contains_key s.files name ≡ false → bit (in_ac f.body.regs 1) 0 ≡ 1 → MOST_FILES ≤ map.len s.files → Refuses s f GTJFN FILES_FULL }
    ensures open { (s : PlainState) (f : AFork) → Lives s f → map.get (jfns_of s f) (jfn_named f) ≡ None → Refuses s f OPENF NO_JFN }
    ensures close { (s : PlainState) (f : AFork) → Lives s f → map.get (jfns_of s f) (jfn_named f) ≡ None → Refuses s f CLOSF NO_JFN }
    ensures release { (s : PlainState) (f : AFork) → Lives s f → map.get (jfns_of s f) (jfn_named f) ≡ None → Refuses s f RLJFN NO_JFN }
    ensures delete { (s : PlainState) (f : AFork) → Lives s f → map.get (jfns_of s f) (jfn_named f) ≡ None → Refuses s f DELF NO_JFN }
    ensures used { (s : PlainState) (f : AFork) (j : OpenFile) → Lives s f → NamesJfn s f j → 1 < times_held s.jobs j.file → Refuses s f DELF FILE_IN_USE }
{}

/// CLOSF changes nothing but that the JFN is free again, whatever it was open for.
pub fn released_jfns_are_free()
    ensures released { (s : PlainState) (f : AFork) (j : OpenFile) → Lives s f → NamesJfn s f j
        → turn_of s f CLOSF ≡ record { parts = with_jfns s f (λ m. map.remove m (jfn_named f)); caller = Some (behind_second f f.body.regs); out = None } }
    ensures free { (s : PlainState) (f : AFork) (j : OpenFile) → Lives s f → NamesJfn s f j → is_free (held_at (turn_of s f CLOSF).parts.jobs f.name.tty) (jfn_named f) ≡ true }
{}

/// DELF removes the file of the one JFN that stands for it, with its pages there, and releases the JFN.
pub fn files_go_with_their_one_jfn()
    ensures { (s : PlainState) (f : AFork) (j : OpenFile) → Lives s f → NamesJfn s f j → times_held s.jobs j.file ≤ 1
        → turn_of s f DELF ≡ record {
          parts = record (with_jfns s f (λ m. map.remove m (jfn_named f))) { pages = without_file s.pages j.file; files = map.remove s.files j.file };
          caller = Some (behind_second f f.body.regs);
          out = None;
        } }
{}

/// The pages of a file that goes stay with their words where a map or another file names them, as maps do that
/// stay as they were; the others are gone. Pages stay whole, and none is more.
pub fn mapped_pages_outlive_their_file()
    ensures none { (p : NumberedPages) (file page : ℕ) → map.get (without_file p file).files (record { file = file; page = page }) ≡ None }
    ensures others { (p : NumberedPages) (file : ℕ) (f : FilePage ℕ) → f.file ≢ file → map.get (without_file p file).files f ≡ map.get p.files f }
    ensures maps { (p : NumberedPages) (file : ℕ) → (without_file p file).maps ≡ p.maps }
    ensures words { (p : NumberedPages) (file : ℕ) (n : APageName) → AreWhole p → 0 < uses (without_file p file) n → map.get (without_file p file).objects n ≡ map.get p.objects n }
    ensures gone { (p : NumberedPages) (file : ℕ) (n : APageName) → AreWhole p → uses (without_file p file) n ≡ 0 → map.get (without_file p file).objects n ≡ None }
    ensures whole { (p : NumberedPages) (file : ℕ) → AreWhole p → AreWhole (without_file p file) × (live (without_file p file) ≤ live p) }
{}
