//! The triggers under way: taken, and not answered yet.
ghost use Rattle.std.specs.Prelude.{◌≡◌, ◌⊎◌, [], IfOk, None, length};
ghost use Rattle.nr_trigger.specs.Tokens.{WasEmpty};
ghost use Rattle.nr_load.specs.UnderWay.{AreBelow, Readies, TakesMore, ahead_of};

use crate::base::Base;
use nr_serve::Dataflow;
use nr_trigger::Trigger;
use std::alloc::{AllocError, Global};
use std::collections::VecDeque;
use std::marker::Model;
use std::sync::Wait;

/// The triggers that the dataflow took ahead of its turns, oldest first. It can't be dropped: it must
/// be ended.
pub(crate) struct UnderWay {
    /// How many there may be; the room for them is there.
    most: u32,
    triggers: VecDeque<Trigger>,
}

impl Model for UnderWay {
    ghost use Rattle.std.specs.Prelude.{◌≤◌, length};
    ghost use Rattle.std.specs.VecDeque.{deque_capacity};
    ghost use Rattle.nr_load.specs.UnderWay.{UnderWaySeen};

    ghost Value = { UnderWaySeen };

    ghost view = { λ under_way. record { most = under_way.most; posts = under_way.triggers.items } };

    ghost invariant = { λ under_way. (length under_way.triggers.items ≤ under_way.most) × (under_way.most ≤ deque_capacity under_way.triggers) };
}

impl UnderWay {
    /// None so far, and room for that many. Where one alone may be under way, none is taken ahead: the
    /// turn that answers it takes it.
    pub(crate) fn open(alloc: Global, upqueries: u32) -> Result<UnderWay, AllocError>
        ensures { IfOk result (λ under_way. under_way ≡ record { most = ahead_of upqueries; posts = [] }) }
    {
        let most = if 1 < upqueries { upqueries } else { 0 };
        let triggers = VecDeque::with_capacity(alloc, most as usize)?;
        Ok(UnderWay { most, triggers })
    }

    /// Takes triggers until as many are under way as may be, or the queue has none, and lets the next
    /// turn answer the oldest.
    pub(crate) fn ready<R: Wait>(&mut self, rt: &R, flow: &mut Dataflow<'_, Base>)
        requires none { flow.old.kept ≡ None }
        requires near { AreBelow flow.old.map.shape.keys self.old.posts }
        ensures { Readies flow.old self.old flow.new self.new }
    {
        self.take_more(rt, flow);
        let Some(oldest) = self.triggers.pop_front() else {
            return;
        };
        match flow.keep(oldest) {
            None => {}
            Some(_) => unreachable!(),
        }
    }

    // Takes until as many are under way as may be, or the queue has none.
    fn take_more<R: Wait>(&mut self, rt: &R, flow: &mut Dataflow<'_, Base>)
        requires none { flow.old.kept ≡ None }
        requires near { AreBelow flow.old.map.shape.keys self.old.posts }
        ensures takes { TakesMore flow.old self.old flow.new self.new }
        ensures far { (length self.new.posts ≡ self.old.most) ⊎ WasEmpty flow.new.taker }
    {
        for _taken in self.triggers.len()..self.most as usize {
            let Some(trigger) = flow.take(rt) else {
                return;
            };
            self.triggers.push_back_reserved(trigger);
        }
    }

    /// The triggers that are left are spent.
    pub(crate) fn end(self) {
        let UnderWay {
            most: _,
            mut triggers,
        } = self;
        while let Some(trigger) = triggers.pop_front() {
            trigger.into_key();
        }
        triggers.destroy_empty();
    }
}
