// What the headline says of a record.
ghost use Rattle.std.specs.Prelude.{ℕ, List};
ghost use Rattle.script_texts.specs.declared.event.Event.{Event as AnEvent};
ghost use Rattle.script_texts.specs.declared.event.Item.{Item as AnItem};
ghost use Rattle.script_texts.specs.declared.event.Step.{Step as AStep};
ghost use Rattle.script_texts.specs.Entries.{FitsRecord};
ghost use Rattle.command_words.specs.declared.sizes.Sizes.{Sizes as ASizes};
ghost use Rattle.script_driver.specs.RunTexts.{IsRunOf};
ghost use Rattle.script_driver.specs.Observed.{Observed};

/// The entries of a run and the counts in its record are within their limits, so that no others within theirs have this record.
pub fn a_record_is_of_one_run()
    ensures { (events : List AnEvent) (text : List AnItem → List AStep → List ℕ) (sizes : ASizes) (told : Observed) (run : IsRunOf events text sizes told)
        → FitsRecord run.entries told.reads told.writes }
{}
