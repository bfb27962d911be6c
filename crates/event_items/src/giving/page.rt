// A file's page, given to a taker.
ghost use Rattle.std.specs.Prelude.{◌<◌, ◌∷◌, []};
ghost use Rattle.outside.specs.declared.TheConstants.{PAGE_WORDS as WORDS};
ghost use Rattle.page_contracts.specs.Pages.{IsPlace, spot_of};
ghost use Rattle.plain_pages.specs.References.{word_at, words_at};
ghost use Rattle.plain_model.specs.FileEvents.{words_shown};
ghost use Rattle.machine_names.specs.Bounds.{IsFileName};
ghost use Rattle.machine_names.specs.declared.names.TheConstants.{SPACE_PAGES};
ghost use Rattle.step_shown.specs.Replies.{page_items};
ghost use Rattle.step_shown.specs.declared.reply.Reply.{Reply as AReply};
ghost use Rattle.monitor_core.specs.Needing.{IsInFrames, ShownAt};
ghost use Rattle.monitor_core.specs.Systems.{FitsPages, state_of};
ghost use Rattle.event_items.specs.Giving.{TookOver};

use machine_names::{FileName, Place};
use monitor_core::System;
use outside::{Failed, PAGE_WORDS};
use page_contracts::{Pages, Peeked};
use script_texts::{Item, Taker};

// Gives the word at an offset of a page, if it isn't 0. It is so over each drum over which the page is in a frame.
fn give_word<P: Pages, T: Taker>(
    pages: &P,
    at: Place,
    offset: u16,
    out: &mut T,
) -> Result<(), Failed>
    requires place { IsPlace (P.means.lives pages.now) at }
    requires offset { offset < WORDS }
    ensures { TookOver (λ d. P.means.fits pages.now d × IsInFrames P.means pages.now d at) T.fault_count T.onward T.stands T.cut out.old out.new result
        (λ d. words_shown offset (word_at (P.means.plain pages.now d) (spot_of at) offset ∷ [])) [] }
{
    match pages.peek(at, offset) {
        Peeked::Is(word) => {
            if word.value() == 0 {
                return Ok(());
            }
            out.item(Item::PageWord(offset, word))
        }
        Peeked::NoPage => Ok(()),
        // It comes over no such drum.
        Peeked::Absent(_) => Ok(()),
    }
}

// Gives the words of a page that aren't 0, each with its offset, over each drum over which it is in a frame.
fn give_words<P: Pages, T: Taker>(pages: &P, at: Place, out: &mut T) -> Result<(), Failed>
    requires place { IsPlace (P.means.lives pages.now) at }
    ensures { TookOver (λ d. P.means.fits pages.now d × IsInFrames P.means pages.now d at) T.fault_count T.onward T.stands T.cut out.old out.new result
        (λ d. words_shown 0 (words_at (P.means.plain pages.now d) (spot_of at))) [] }
{
    for offset in 0..PAGE_WORDS as u16 {
        give_word(pages, at, offset, out)?;
    }
    Ok(())
}

/// Gives a file's page, if it is there, over each drum over which it is in a frame.
#[inline(never)]
pub fn give_page<P: Pages, T: Taker>(
    system: &System<P>,
    name: &FileName,
    page: u16,
    out: &mut T,
) -> Result<(), Failed>
    requires name { IsFileName name.now }
    requires page { page < SPACE_PAGES }
    ensures { TookOver (λ d. FitsPages system.now d × ShownAt system.now d (AReply.Page name.now page)) T.fault_count T.onward T.stands T.cut out.old out.new result (λ d. page_items (state_of system.now d) name.now page) [] }
{
    let Some(file) = system.files().find(name) else {
        return Ok(());
    };
    let pages = system.pages();
    if pages.page_of(file, page).is_none() {
        return Ok(());
    }
    out.item(Item::PageLine(*name, page))?;
    give_words(pages, Place::File(file, page), out)
}
