// What follows from the definitions, in the words of who writes a program. A law does nothing when it runs.
ghost use Rattle.psi_calls.specs.Laws.{AreAdded, AreTaken, UndoesDeliveries};

/// Behind AIC the channels that it names are active, and each other one is as it was; behind DIC they are neither active nor pending, and
/// each other one is as it was.
pub fn channels_are_added_and_taken()
    ensures added { AreAdded }
    ensures taken { AreTaken }
{}

/// DEBRK undoes the delivery of a channel: it ends the level of that delivery, leaves each other level as it was, and with the word that the
/// delivery has stored the program counter and the flags are as they were, and so are the accumulators but for one in which that word stands.
pub fn deliveries_are_undone()
    ensures { UndoesDeliveries }
{}
