//! What the replay of a run's record comes to.
ghost use Rattle.std.specs.Prelude.{◌≡◌, ℕ, List, Option, Some, true};
ghost use Rattle.std.specs.Option.{unwrap_or};
ghost use Rattle.outside.specs.Told.{Grows};
ghost use Rattle.script_texts.specs.Texts.{transcript};
ghost use Rattle.script_texts.specs.declared.event.Step.{Step as AStep};
ghost use Rattle.plain_model.specs.Run.{AreLegal, items_of};
ghost use Rattle.plain_model.specs.State.{opening};
ghost use Rattle.record_reader.specs.Versions.{CanBeRead, whole_record};
ghost use Rattle.record_player.specs.Plays.{Plays};
ghost use Rattle.record_player.specs.Replays.{IsJudged, Replays};
ghost use Rattle.record_player.specs.declared.replay_end.ReplayEnd.{ReplayEnd as AnEnd};

/// The replay of the record of a run that is done, of either version, within the limits of its reader and with that run's drum, writes that run's
/// transcript. Such a record is played to its end: neither a bad line, nor its length, nor an entry that can't be played stops it.
pub fn a_replay_shows_the_run()
    ensures plays { (asked : ℕ) (size : Option ℕ) (entries : List AStep) (reads writes : ℕ) → CanBeRead size entries reads writes → AreLegal true (opening (unwrap_or size asked)) entries
        → Plays asked (Some (whole_record size entries reads writes)) AnEnd.Done }
    ensures ends { (asked : ℕ) (size : Option ℕ) (entries : List AStep) (reads writes : ℕ) → CanBeRead size entries reads writes → AreLegal true (opening (unwrap_or size asked)) entries
        → (how : AnEnd) → IsJudged how → Plays asked (Some (whole_record size entries reads writes)) how → how ≡ AnEnd.Done }
    ensures shows { (asked : ℕ) (size : Option ℕ) (entries : List AStep) (reads writes : ℕ) → CanBeRead size entries reads writes
        → (out out' : Option (List ℕ)) → Replays asked (Some (whole_record size entries reads writes)) AnEnd.Done out out' → Grows out out' (transcript (items_of (opening (unwrap_or size asked)) entries)) }
{}
