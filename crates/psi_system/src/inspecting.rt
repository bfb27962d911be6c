// The inspection of a fork: its channels that are active and pending are looked at, before its next unit.
ghost use Rattle.std.specs.Prelude.{◌≡◌, ◌+◌, ◌-◌, ◌≤◌, ◌<◌, ◌^◌, IfErr, IfOk, None, Some};
ghost use Rattle.page_contracts.specs.DrumWords.{DrumWords};
ghost use Rattle.plain_model.specs.Inspections.{channel_at as channel_at_of, chosen as chosen_of, inspecting, inspection, level_at as level_at_of, wanted};
ghost use Rattle.plain_model.specs.Readings.{read};
ghost use Rattle.machine_names.specs.Bounds.{IsAddress};
ghost use Rattle.plain_model.specs.declared.interrupt.Inspected.{Inspected as AnInspected};
ghost use Rattle.plain_model.specs.declared.interrupt.Delivery.{Delivery as ADelivery};
ghost use Rattle.ka10_unit.specs.Gathers.{Serves, framed, weight};
ghost use Rattle.text_pointers.specs.Reading.{IsByReference, Stands, StopsFor};
ghost use Rattle.psi_system.specs.Judgements.{FitsDelivery, FitsFound, FitsInspected, FitsJudged, behind};
ghost use Rattle.psi_system.specs.Inspecting.{Delivers, Inspects, IsNew, Opens, ReadsOn, fork_with};

use crate::channels::is_wanted;
use crate::judging::{Judged, judge};
use ka10_unit::Stop;
use machine_names::ForkName;
use page_contracts::Pages;
use plain_model::Body;
use plain_model::interrupt::{CHANNELS, Delivery, Found, Inspected, LEVELS};
use plain_units::Regs;
use text_pointers::Reader;
use word36::Word;

// The address of a channel's word, LEVTAB,,CHNTAB being the table.
fn channel_at(table: Word, channel: u8) -> u32
    requires { channel < CHANNELS }
    ensures { result ≡ channel_at_of table channel }
{
    table.right() + u32::from(channel) & Word::HALF_MASK
}

/// The address of the word of a level, 1 to 3, in a table LEVTAB,,CHNTAB.
pub fn level_at(table: Word, level: u8) -> u32
    requires first { 1 ≤ level }
    requires last { level ≤ LEVELS }
    ensures at { result ≡ level_at_of table level }
    ensures address { IsAddress result }
{
    table.left() + u32::from(level - 1) & Word::HALF_MASK
}

// Looks at the channels in order, by their words.
fn look<P: Pages>(reader: &mut Reader, body: &Body, table: Word, pages: &P) -> Result<Judged, Stop>
    requires serves { Serves P.means pages.now reader.old.fork }
    requires new { IsNew reader.old }
    ensures fork { reader.new.fork ≡ reader.old.fork }
    ensures few { IfOk result (λ j. weight reader.new.gather ≤ 2) }
    ensures fits { IfOk result FitsJudged }
    ensures needs { IfErr result (StopsFor P.means pages.now) }
    ensures channel { IfErr result IsByReference }
    ensures told { (d : DrumWords) → P.means.fits pages.now d → Stands reader.old.fork (framed P.means pages.now d) reader.old
        → ReadsOn reader.old.fork (framed P.means pages.now d) body.now.regs reader.old reader.new (inspecting (fork_with reader.old.fork body.now) table (wanted body.now.psi) None) (behind (chosen_of body.now.regs table)) result }
{
    let mut best = None;
    for channel in 0..CHANNELS {
        if !is_wanted(&body.psi, channel) {
            continue;
        }
        match reader.word(&body.regs, pages, channel_at(table, channel)) {
            Err(stop) => return Err(stop),
            Ok(word) => match judge(&body.psi, channel, word, best) {
                Judged::Forces(by) => return Ok(Judged::Forces(by)),
                Judged::Best(next) => best = next,
            },
        }
    }
    Ok(Judged::Best(best))
}

// The best channel is taken: the word of its level names the address at which the PC word is stored.
fn choose<P: Pages>(
    reader: &mut Reader,
    regs: &Regs,
    table: Word,
    found: Found,
    pages: &P,
) -> Result<Delivery, Stop>
    requires serves { Serves P.means pages.now reader.old.fork }
    requires few { weight reader.old.gather ≤ 2 }
    requires found { FitsFound found }
    ensures fork { reader.new.fork ≡ reader.old.fork }
    ensures fits { IfOk result FitsDelivery }
    ensures needs { IfErr result (StopsFor P.means pages.now) }
    ensures channel { IfErr result IsByReference }
    ensures told { (d : DrumWords) → P.means.fits pages.now d → Stands reader.old.fork (framed P.means pages.now d) reader.old
        → ReadsOn reader.old.fork (framed P.means pages.now d) regs.now reader.old reader.new (chosen_of regs.now table (Some found)) (λ (e : ADelivery). read (AnInspected.Delivers e)) result }
    ensures opens { (d : DrumWords) → P.means.fits pages.now d → Stands reader.old.fork (framed P.means pages.now d) reader.old
        → IfOk result (Opens reader.old.fork (framed P.means pages.now d) reader.new) }
{
    match reader.word(regs, pages, level_at(table, found.level)) {
        Err(stop) => Err(stop),
        Ok(word) => {
            let at = word.right();
            match reader.writable(pages, at) {
                Err(stop) => Err(stop),
                Ok(()) => Ok(Delivery { found, at }),
            }
        }
    }
}

// What comes of a look at all channels.
fn conclude<P: Pages>(
    reader: &mut Reader,
    regs: &Regs,
    table: Word,
    judged: Judged,
    pages: &P,
) -> Result<Inspected, Stop>
    requires serves { Serves P.means pages.now reader.old.fork }
    requires few { weight reader.old.gather ≤ 2 }
    requires judged { FitsJudged judged }
    ensures fork { reader.new.fork ≡ reader.old.fork }
    ensures fits { IfOk result FitsInspected }
    ensures needs { IfErr result (StopsFor P.means pages.now) }
    ensures channel { IfErr result IsByReference }
    ensures told { (d : DrumWords) → P.means.fits pages.now d → Stands reader.old.fork (framed P.means pages.now d) reader.old
        → ReadsOn reader.old.fork (framed P.means pages.now d) regs.now reader.old reader.new (behind (chosen_of regs.now table) judged) (λ (i : AnInspected). read i) result }
    ensures opens { (d : DrumWords) → P.means.fits pages.now d → Stands reader.old.fork (framed P.means pages.now d) reader.old
        → IfOk result (Delivers reader.old.fork (framed P.means pages.now d) reader.new) }
{
    match judged {
        Judged::Forces(by) => Ok(Inspected::Forces(by)),
        Judged::Best(None) => Ok(Inspected::Nothing),
        Judged::Best(Some(found)) => match choose(reader, regs, table, found, pages) {
            Err(stop) => Err(stop),
            Ok(delivery) => Ok(Inspected::Delivers(delivery)),
        },
    }
}

// The inspection by a table, if there is one.
fn inspect_by<P: Pages>(reader: &mut Reader, body: &Body, pages: &P) -> Result<Inspected, Stop>
    requires serves { Serves P.means pages.now reader.old.fork }
    requires new { IsNew reader.old }
    ensures fork { reader.new.fork ≡ reader.old.fork }
    ensures fits { IfOk result FitsInspected }
    ensures needs { IfErr result (StopsFor P.means pages.now) }
    ensures channel { IfErr result IsByReference }
    ensures told { (d : DrumWords) → P.means.fits pages.now d → Stands reader.old.fork (framed P.means pages.now d) reader.old
        → ReadsOn reader.old.fork (framed P.means pages.now d) body.now.regs reader.old reader.new (inspection (fork_with reader.old.fork body.now)) (λ (i : AnInspected). read i) result }
    ensures opens { (d : DrumWords) → P.means.fits pages.now d → Stands reader.old.fork (framed P.means pages.now d) reader.old
        → IfOk result (Delivers reader.old.fork (framed P.means pages.now d) reader.new) }
{
    let Some(table) = body.psi.table else {
        return Ok(Inspected::Nothing);
    };
    match look(reader, body, table, pages) {
        Err(stop) => Err(stop),
        Ok(judged) => conclude(reader, &body.regs, table, judged, pages),
    }
}

/// Looks at the channels of a fork that are active and pending, by its tables (JSYS Manual, "Pseudo-interrupt system"). Ok: none can
/// be taken; or one is taken, and its PC word can be stored once the pages are made; or the fork is forced by a channel. Err: a
/// reference to a word of the tables, or to that of the PC word, whose page, or a map on the way, is in no frame, or for which a page
/// has to be made while no frame is free; or one that is denied, or for which the drum is full, which forces the fork by its channel.
/// The reader begins anew, and what it has referred to then is to be made before a channel is delivered: no page is made before `deliver`.
pub fn inspect<P: Pages>(
    reader: &mut Reader,
    body: &Body,
    fork: ForkName,
    pages: &P,
) -> Result<Inspected, Stop>
    requires serves { Serves P.means pages.now fork }
    ensures fork { reader.new.fork ≡ fork }
    ensures fits { IfOk result FitsInspected }
    ensures needs { IfErr result (StopsFor P.means pages.now) }
    ensures channel { IfErr result IsByReference }
    ensures told { (d : DrumWords) → P.means.fits pages.now d → Inspects fork body.now (framed P.means pages.now d) reader.new result }
{
    reader.restart(fork);
    inspect_by(reader, body, pages)
}
