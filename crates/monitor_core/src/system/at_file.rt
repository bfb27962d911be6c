// The events of files.
ghost use Rattle.std.specs.Prelude.{◌≡◌, ◌<◌, ◌^◌, IfErr, IfOk, IsOk, true};
ghost use Rattle.machine_names.specs.Bounds.{IsFileName};
ghost use Rattle.machine_names.specs.declared.names.TheConstants.{SPACE_PAGES};
ghost use Rattle.script_texts.specs.Limits.{FitsRow};
ghost use Rattle.script_texts.specs.declared.event.Event.{Event as AnEvent};
ghost use Rattle.script_texts.specs.declared.event.Step.{Step as AStep};
ghost use Rattle.step_shown.specs.Replies.{reply_of};
ghost use Rattle.monitor_core.specs.Needing.{CanShow, EventNeeds};
ghost use Rattle.monitor_core.specs.Systems.{Did, IsWithin, Waits, event_frames};

use crate::system::System;
use console_access::{reach, write_row};
use machine_names::{FileName, PAGE_ADDRESSES, Place, Tty};
use page_contracts::{Need, Pages, Peeked};
use script_texts::{Refusal, WordRow};
use step_shown::Reply;

impl<P: Pages> System<P> {
    /// FILE: an empty file is made. Exists, where there is one of this name; FilesFull, where there are 512.
    pub(crate) fn make_file(&mut self, name: &FileName) -> Result<Reply, Refusal>
        requires name { IsFileName name.now }
        ensures did { Did self.old self.new (AStep.Outer (AnEvent.File name.now)) (reply_of result) }
        ensures shown { CanShow self.new (reply_of result) }
        ensures tree { self.new.tree ≡ self.old.tree }
    {
        if self.files.find(name).is_some() {
            return Err(Refusal::Exists(*name));
        }
        if !self.files.has_room() {
            return Err(Refusal::FilesFull(*name));
        }
        self.files.create(name);
        Ok(Reply::Nothing)
    }

    /// WORDS: words are put into a file's page, from an offset on; the file reaches behind them, and its bytes are words.
    /// NoFile, where there is none of this name; FileFull, where the page had to be made and the drum is full. Err: the page is in no frame, or finds none; nothing is done.
    pub(crate) fn write_words(
        &mut self,
        name: &FileName,
        page: u16,
        offset: u16,
        row: &WordRow,
    ) -> Result<Result<Reply, Refusal>, Need>
        requires name { IsFileName name.now }
        requires page { page < SPACE_PAGES }
        requires row { FitsRow offset row.now }
        requires few { IsWithin self.old (2 ^ 52) }
        ensures did { IfOk result (λ done. Did self.old self.new (AStep.Outer (AnEvent.Words name.now page offset row.now)) (reply_of done)) }
        ensures shown { IfOk result (λ done. CanShow self.new (reply_of done)) }
        ensures waits { IfErr result (Waits event_frames self.old self.new) }
        ensures reason { IfErr result (EventNeeds self.new (AnEvent.Words name.now page offset row.now)) }
        ensures core { P.means.flat ≡ true → IsOk result }
        ensures tree { self.new.tree ≡ self.old.tree }
    {
        let Some(file) = self.files.find(name) else {
            return Ok(Err(Refusal::NoFile(*name)));
        };
        match write_row(
            &mut self.pages,
            Place::File(file, page),
            Tty::CONSOLE,
            offset,
            row,
        ) {
            Ok(Ok(())) => {
                let end = u32::from(page) * PAGE_ADDRESSES
                    + u32::from(offset)
                    + u32::from(row.count);
                reach(&mut self.files, file, u64::from(end));
                Ok(Ok(Reply::Nothing))
            }
            Ok(Err(_)) => Ok(Err(Refusal::FileFull(*name))),
            Err(need) => Err(need),
        }
    }

    /// PAGE: a file's page is shown, which is in a frame then. NoFile, where there is none of this name; NoFilePage, where it has no such page.
    /// Err: the page is in no frame; nothing is done.
    pub(crate) fn show_page(
        &mut self,
        name: &FileName,
        page: u16,
    ) -> Result<Result<Reply, Refusal>, Need>
        requires name { IsFileName name.now }
        requires page { page < SPACE_PAGES }
        ensures did { IfOk result (λ done. Did self.old self.new (AStep.Outer (AnEvent.Page name.now page)) (reply_of done)) }
        ensures shown { IfOk result (λ done. CanShow self.new (reply_of done)) }
        ensures waits { IfErr result (Waits event_frames self.old self.new) }
        ensures reason { IfErr result (EventNeeds self.new (AnEvent.Page name.now page)) }
        ensures core { P.means.flat ≡ true → IsOk result }
        ensures tree { self.new.tree ≡ self.old.tree }
    {
        let Some(file) = self.files.find(name) else {
            return Ok(Err(Refusal::NoFile(*name)));
        };
        match self.pages.peek(Place::File(file, page), 0) {
            Peeked::Is(_) => Ok(Ok(Reply::Page(*name, page))),
            Peeked::NoPage => Ok(Err(Refusal::NoFilePage(*name))),
            Peeked::Absent(home) => Err(Need::Page(home)),
        }
    }
}
