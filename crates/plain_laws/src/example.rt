// What the definitions say of two small scripts, computed.
ghost use Rattle.std.specs.Prelude.{◌≡◌, ℕ, [], true, codes};
ghost use Rattle.plain_model.specs.State.{opening};
ghost use Rattle.script_texts.specs.Follows.{Follows};
ghost use Rattle.plain_model.specs.Run.{AreLegal, plain_run};
ghost use Rattle.script_texts.specs.Script.{IsScript};
ghost use Rattle.script_texts.specs.Texts.{transcript, record_text};
ghost use Rattle.plain_laws.specs.Example.{example_script, example_events, example_steps, example_transcript, example_record};

/// The empty script has no entries, shows nothing, and has a record of one line.
pub fn empty_script()
    ensures follows { Follows [] [] }
    ensures legal { (n : ℕ) → AreLegal true (opening n) [] }
    ensures transcript { (n : ℕ) → transcript (plain_run n []).items ≡ [] }
    ensures record { record_text [] 0 0 ≡ codes "E 0 0\n" }
{}

/// A script of one job that prints a letter and halts: three units and two idle entries follow it
/// and are legal, and these are the bytes of its transcript and of its record.
pub fn first_script()
    ensures legal { AreLegal true (opening 2048) example_steps }
    ensures spelled { IsScript example_script example_events }
    ensures follows { Follows example_events example_steps }
    ensures transcript { transcript (plain_run 2048 example_steps).items ≡ example_transcript }
    ensures record { record_text example_steps 0 0 ≡ example_record }
{}
