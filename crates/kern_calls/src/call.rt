// A kernel call of a thread.
ghost use Rattle.std.specs.Prelude.{◌≡◌, length, IfOk};
ghost use Rattle.kern_model.specs.KernelCalls.{IsCall, inner_of};
ghost use Rattle.kern_calls.specs.Calls.{IsMounted, MayCall, Answered};
ghost use Rattle.kern_calls.specs.Steps.{IsChange};

use crate::kernel::Kernel;
use kern_commit::{commit, commit_law, count_events};
use kern_laws::{crash_law, row_law};
use kern_pages::owners_law;
use kern_plans::find;
use pm_words::{NoMemory, Words};
use std::alloc::AllocError;
use tr_types::{Kcall, KernAnswer};

impl Kernel {
    /// Answers a call of a thread at a tick, by the call's row. A refused call changes nothing. An
    /// accepted change is durable when this answers: the pages that are given come zeroed, and all words
    /// of the change are stored by the journal, so that a crash leaves all or none.
    ///
    /// After `NoMemory` the words are as after some number of the call's inner steps.
    pub fn call(&mut self, words: &mut Words, thread: u16, now: u32, call: &Kcall) -> KernAnswer
        requires mounted { IsMounted self.old words.old }
        requires caller { MayCall self.old.callers thread call.now }
        requires call { IsCall call.now }
        ensures answered { Answered self.old words.old thread now call.now result self.new words.new }
        ensures len { length words.new ≡ length words.old }
    {
        match call {
            Kcall::Find { path, also } => find(words, path, also),
            Kcall::Map {
                path,
                right,
                exclusive,
            } => self.map(words, thread, path, *right, *exclusive),
            Kcall::Unmap { id } => self.unmap(thread, *id),
            _ => self.change(words, thread, now, call),
        }
    }

    // Answers a call that stores words where it isn't refused.
    fn change(&mut self, words: &mut Words, thread: u16, now: u32, call: &Kcall) -> KernAnswer
        requires mounted { IsMounted self.old words.old }
        requires caller { MayCall self.old.callers thread call.now }
        requires call { IsCall call.now }
        requires change { IsChange call.now }
        ensures answered { Answered self.old words.old thread now call.now result self.new words.new }
        ensures len { length words.new ≡ length words.old }
    {
        let cred = self.cred_of(thread);
        let plan = match self.plan(words, cred, thread, now, call) {
            Ok(plan) => plan,
            Err(refusal) => return refusal,
        };
        // What the plan says can be committed.
        row_law();
        if commit(self.alloc, words, &plan.granted, &plan.pairs).is_err() {
            return KernAnswer::NoMemory;
        }
        // The kernel can stand over what that leaves, and a crash changes nothing of its pages.
        commit_law();
        crash_law();
        owners_law();
        if self.follow(words, &plan.pairs).is_err() {
            return KernAnswer::NoMemory;
        }
        self.end_maps(call);
        plan.answer
    }

    /// How many stores, flushes and fences `call` would make of its own, none where it would be refused.
    pub fn inner(&self, words: &Words, thread: u16, now: u32, call: &Kcall) -> Result<u32, NoMemory>
        requires mounted { IsMounted self.now words.now }
        requires caller { MayCall self.now.callers thread call.now }
        requires call { IsCall call.now }
        ensures { IfOk result (λ count. count ≡ length (inner_of self.now.callers words.now self.now.holders thread now call.now)) }
    {
        match call {
            Kcall::Find { .. } | Kcall::Map { .. } | Kcall::Unmap { .. } => Ok(0),
            _ => self.count_change(words, thread, now, call),
        }
    }

    // How many of these a call makes that stores words where it isn't refused.
    fn count_change(
        &self,
        words: &Words,
        thread: u16,
        now: u32,
        call: &Kcall,
    ) -> Result<u32, NoMemory>
        requires mounted { IsMounted self.now words.now }
        requires caller { MayCall self.now.callers thread call.now }
        requires call { IsCall call.now }
        requires change { IsChange call.now }
        ensures { IfOk result (λ count. count ≡ length (inner_of self.now.callers words.now self.now.holders thread now call.now)) }
    {
        row_law();
        let cred = self.cred_of(thread);
        match self.plan(words, cred, thread, now, call) {
            Ok(plan) => count_events(self.alloc, words, &plan.granted, &plan.pairs),
            Err(KernAnswer::NoMemory) => Err(AllocError),
            Err(_) => Ok(0),
        }
    }
}
