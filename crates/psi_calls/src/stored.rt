// The word that a delivery has stored.
ghost use Rattle.std.specs.Prelude.{◌≡◌, ◌≤◌, IfErr};
ghost use Rattle.page_contracts.specs.DrumWords.{DrumWords};
ghost use Rattle.plain_model.specs.declared.interrupt.TheConstants.{LEVELS};
ghost use Rattle.ka10_unit.specs.Gathers.{Serves, framed};
ghost use Rattle.text_pointers.specs.Reading.{StopsFor};
ghost use Rattle.psi_calls.specs.Stored.{ReadsStored};

use ka10_unit::Stop;
use machine_names::ForkName;
use page_contracts::Pages;
use plain_units::Regs;
use psi_system::level_at;
use text_pointers::Reader;
use word36::Word;

/// Reads the word that a delivery at a level, 1 to 3, has stored: the right half of the level's word in the table names its address. Err: a
/// reference to one of the two whose page, or a map on the way, is in no frame; that is denied; or for which a page has to be made while
/// the drum is full, or no frame is free. The reader begins anew, and what it has referred to then is to be made before the word is used up: no
/// page is made before `Reader::make`.
pub fn word_stored<P: Pages>(
    reader: &mut Reader,
    regs: &Regs,
    who: ForkName,
    table: Word,
    level: u8,
    pages: &P,
) -> Result<Word, Stop>
    requires serves { Serves P.means pages.now who }
    requires first { 1 ≤ level }
    requires last { level ≤ LEVELS }
    ensures fork { reader.new.fork ≡ who }
    ensures needs { IfErr result (StopsFor P.means pages.now) }
    ensures told { (d : DrumWords) → P.means.fits pages.now d → ReadsStored who (framed P.means pages.now d) regs.now table level reader.new result }
{
    reader.restart(who);
    match reader.word(regs, pages, level_at(table, level)) {
        Err(stop) => Err(stop),
        Ok(named) => reader.word(regs, pages, named.right()),
    }
}
