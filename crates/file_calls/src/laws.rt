// What follows from the definitions, for the users of the calls on JFNs. A law does nothing when it runs.
ghost use Rattle.std.specs.Prelude.{◌≡◌, List, ℕ};
ghost use Rattle.machine_names.specs.declared.names.Tty.{Tty as ATty};
ghost use Rattle.plain_files.specs.OpenFiles.{OpenFiles, open_at, times_open_in_all};
ghost use Rattle.plain_model.specs.FileCalls.{Jobs, held_at, times_held};
ghost use Rattle.file_calls.specs.Jobs.{AreHeld, jobs_holding};

/// Jobs that hold the JFNs of tables hold at each terminal those of that terminal, and as many of all jobs stand for a file.
pub fn jobs_hold_the_jfns()
    ensures held { (jobs : Jobs) (opens : List OpenFiles) (t : ATty) → AreHeld jobs opens
        → held_at (jobs_holding jobs opens) t ≡ open_at opens t.0 }
    ensures times { (jobs : Jobs) (opens : List OpenFiles) (name : List ℕ) → AreHeld jobs opens
        → times_held (jobs_holding jobs opens) name ≡ times_open_in_all opens name }
{}
