// What a program calls forks of its job.
ghost use Rattle.std.specs.Prelude.{◌≡◌, IfSome};
ghost use Rattle.std.specs.Option.{option_copied, option_map};
ghost use Rattle.plain_model.specs.Handles.{named as named_of, named_by};
ghost use Rattle.fork_tree.specs.Trees.{Lives};

use crate::tree::{Tree, name_of};
use machine_names::ForkName;
use plain_model::Fork;
use plain_model::call::{FIRST_HANDLE, FORK_SELF, FORK_SUPERIOR, LAST_HANDLE};

impl Tree {
    // The fork that a handle of a living fork names.
    fn named_by<'a>(&'a self, caller: &'a Fork, handle: u32) -> Option<&'a Fork>
        ensures { option_copied result ≡ named_by self.now.forks handle caller.now }
    {
        match handle {
            FORK_SELF => Some(caller),
            FORK_SUPERIOR => self.superior(caller),
            FIRST_HANDLE..=LAST_HANDLE => self.fork_at(caller.name.tty, (handle - FORK_SELF) as u8),
            _ => None,
        }
    }

    /// The fork that a handle names: 400000 octal is the caller, 777777 its superior, and 400000 and a slot, 1 to 30, the fork of its job in
    /// that slot. None exactly where the handle names no living fork, or the caller does not live. One step.
    pub fn named(&self, who: ForkName, handle: u32) -> Option<ForkName>
        ensures { result ≡ option_map (λ f. f.name) (named_of self.now.forks who handle) }
    {
        name_of(self.fork_named(who, handle))
    }

    /// The same fork itself, as it lives.
    #[tactic(auto, unfolding(plain_model::specs::Handles::named))]
    pub fn fork_named(&self, who: ForkName, handle: u32) -> Option<&Fork>
        ensures found { option_copied result ≡ named_of self.now.forks who handle }
        ensures lives { IfSome (option_copied result) (Lives self.now.forks) }
    {
        match self.fork(who) {
            Some(caller) => self.named_by(caller, handle),
            None => None,
        }
    }
}
