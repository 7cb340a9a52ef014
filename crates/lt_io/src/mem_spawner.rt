//! Links in memory, by command.

ghost use Rattle.std.specs.Prelude.{◌≡◌, ◌≢◌, ◌↔◌, [], None, Some, IfNone, IfSome, IfOk, OnErr};
ghost use Rattle.lt_io.specs.Calls.{IsNextToFail, none_made, with_success, with_fault};
ghost use Rattle.lt_io.specs.MemSpawner.{FailsToStart, first_link, programs_of, without_first};
ghost use Rattle.lt_io.specs.Programs.{IsFinished, IsStarted, IsUnstarted, Same, with_more};
ghost use Rattle.lt_io.specs.ScriptState.{link_of};

use crate::asked::record;
use crate::calls::Calls;
use crate::script_link::ScriptLink;
use crate::spawner::{Spawner, StartRefusal};
use std::alloc::Global;

/// A spawner that gives out links in memory, and fails where it is told to. It doesn't tell what its finished
/// links leave behind.
#[derive(Drop)]
pub struct MemSpawner {
    /// The links to come, each with its command. The first of a command is started first.
    pub links: Vec<(String, ScriptLink)>,
    /// The commands that were asked for, the last one at the end.
    pub asked: Vec<String>,
    /// The calls of `start`. One that ran out of memory does not count.
    pub calls: Calls,
}

// Takes the first link of a command.
fn take_first(links: &mut Vec<(String, ScriptLink)>, command: &str) -> Option<ScriptLink>
    ensures none { IfNone result (first_link links.old.items command.now ≡ None) }
    ensures kept { IfNone result (links.new.items ≡ links.old.items) }
    ensures some { IfSome result (λ link. first_link links.old.items command.now ≡ Some link) }
    ensures taken { IfSome result (λ _. links.new.items ≡
        without_first links.old.items command.now) }
{
    for place in 0..links.len() {
        if links[place].0.as_str() == command {
            return Some(links.remove(place).1);
        }
    }
    None
}

impl MemSpawner {
    // Takes the next link of a command, where the call does not fail.
    fn next_link(&mut self, command: &str) -> Option<ScriptLink>
        ensures none { IfNone result (FailsToStart self.old command.now) }
        ensures kept { IfNone result (self.new.links.items ≡ self.old.links.items) }
        ensures some { IfSome result (λ link. first_link self.old.links.items command.now ≡
            Some link) }
        ensures taken { IfSome result (λ _. self.new.links.items ≡
            without_first self.old.links.items command.now) }
        ensures calm { IfSome result (λ _. ¬ (IsNextToFail self.old.calls)) }
        ensures calls { self.new.calls ≡ self.old.calls }
        ensures asked { self.new.asked ≡ self.old.asked }
    {
        if self.calls.is_next_to_fail() {
            return None;
        }
        take_first(&mut self.links, command)
    }
}

impl Spawner for MemSpawner {
    type L = ScriptLink;

    ghost state = { λ s. programs_of s };

    /// Gives out the first link of that command, which was sent nothing, and whose calls are counted anew.
    ///
    /// It fails exactly where the call is to fail or no link of the command is left. Any answer may yield to
    /// `Memory`, which leaves everything as it was.
    fn start(&mut self, alloc: Global, command: &str) -> Result<ScriptLink, StartRefusal>
        ensures started { IfOk result (λ link.
            IsStarted command.now (programs_of self.old) (programs_of self.new) (link_of link)) }
        ensures failed { result ≡ Err StartRefusal.Failed →
            IsUnstarted command.now (programs_of self.old) (programs_of self.new) }
        ensures memory { result ≡ Err StartRefusal.Memory →
            Same (programs_of self.old) (programs_of self.new) }

        // Beyond the trait: which calls fail, which link is given out, and what each call leaves.
        ensures fails { result ≢ Err StartRefusal.Memory →
            ((result ≡ Err StartRefusal.Failed) ↔ FailsToStart self.old command.now) }
        ensures first { IfOk result (λ link.
            IfSome (first_link self.old.links.items command.now) (λ before.
            link ≡ record before { sent = []; calls = none_made before.calls.failing })) }
        ensures taken { IfOk result (λ _. self.new.links.items ≡
            without_first self.old.links.items command.now) }
        ensures kept { OnErr result (self.new.links.items ≡ self.old.links.items) }
        ensures success { IfOk result (λ _. self.new.calls ≡ with_success self.old.calls) }
        ensures fault { result ≡ Err StartRefusal.Failed →
            self.new.calls ≡ with_fault self.old.calls }
        ensures none_called { result ≡ Err StartRefusal.Memory → self.new.calls ≡ self.old.calls }
    {
        if record(alloc, command, &mut self.asked).is_err() {
            return Err(StartRefusal::Memory);
        }
        let Some(mut link) = self.next_link(command) else {
            self.calls.count_fault();
            return Err(StartRefusal::Failed);
        };
        self.calls.count_success();
        link.restart();
        Ok(link)
    }

    /// Adds the link's faults to the count. The link is dropped.
    fn finish(&mut self, link: ScriptLink)
        ensures finished { IsFinished (programs_of self.old) (programs_of self.new) (link_of link) }

        // Beyond the trait: the count is all that changes, and nothing else is added to it.
        ensures counted { self.new ≡ record self.old {
          calls = record self.old.calls {
            faults = with_more self.old.calls.faults link.calls.faults;
          };
        } }
    {
        self.calls.add_faults(link.faults());
    }
}
