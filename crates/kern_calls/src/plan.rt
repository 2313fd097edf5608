// What a call that changes words would do.
ghost use Rattle.std.specs.Prelude.{◌≡◌, IsSome};
ghost use Rattle.kern_model.specs.Rights.{process_of};
ghost use Rattle.kern_model.specs.KernelCalls.{Callers, IsCall, row_of};
ghost use Rattle.kern_model.specs.KernelCalls as calls;
ghost use Rattle.kern_plans.specs.Asked.{HasCred};
ghost use Rattle.kern_plans.specs.Plans.{Plans};
ghost use Rattle.kern_calls.specs.Calls.{IsMounted, MayCall};
ghost use Rattle.kern_calls.specs.Steps.{IsChange, IsComing, IsGoing};

use crate::kernel::Kernel;
use kern_plans::{Asked, Planned, delete, enlarge, merge, mode, new, recover, shrink, split};
use pm_words::Words;
use std::alloc::Global;
use tr_types::{Cred, Kcall, KernAnswer};

impl Kernel {
    /// The first refusal of a call's row that is due, or what the row does. The call changes words.
    pub(crate) fn plan(
        &self,
        words: &Words,
        cred: Cred,
        thread: u16,
        now: u32,
        call: &Kcall,
    ) -> Result<Planned, KernAnswer>
        requires mounted { IsMounted self.now words.now }
        requires caller { MayCall self.now.callers thread call.now }
        requires cred { IsSome (process_of self.now.callers.threads thread) → cred ≡ calls.cred_of self.now.callers thread }
        requires call { IsCall call.now }
        requires change { IsChange call.now }
        ensures { Plans (row_of self.now.callers words.now self.now.holders thread now call.now) result }
    {
        let asked = Asked::new(words, &self.owners, &self.tables, cred, thread, now);
        match call {
            Kcall::Find { .. } | Kcall::Map { .. } | Kcall::Unmap { .. } => unreachable!(),
            Kcall::New { .. } | Kcall::Split { .. } => plan_coming(self.alloc, &asked, call),
            Kcall::Delete { .. } | Kcall::Merge { .. } => plan_going(self.alloc, &asked, call),
            Kcall::Enlarge { id, count } => enlarge(self.alloc, &asked, *id, *count),
            Kcall::Shrink { id, pages, guard } => shrink(self.alloc, &asked, *id, pages, *guard),
            Kcall::Mode { id, mode: bits } => mode(self.alloc, &asked, *id, *bits),
            Kcall::Recover { id, ready } => recover(self.alloc, &asked, *id, *ready),
        }
    }
}

// What a call does by which a coffer comes.
fn plan_coming(alloc: Global, asked: &Asked, call: &Kcall) -> Result<Planned, KernAnswer>
    requires call { IsCall call.now }
    requires coming { IsComing call.now }
    ensures { (callers : Callers) → HasCred callers asked.now
        → Plans (row_of callers asked.now.words asked.now.holders asked.now.thread asked.now.tick call.now) result }
{
    match call {
        Kcall::New {
            parent,
            path,
            kind,
            mode,
            link,
            guard,
        } => new(alloc, asked, *parent, path, *kind, *mode, *link, *guard),
        Kcall::Split {
            id,
            path,
            pages,
            mode,
            link,
            guard,
        } => split(alloc, asked, *id, path, pages, *mode, *link, *guard),
        _ => unreachable!(),
    }
}

// What a call does by which a coffer goes.
fn plan_going(alloc: Global, asked: &Asked, call: &Kcall) -> Result<Planned, KernAnswer>
    requires { IsGoing call.now }
    ensures { (callers : Callers) → HasCred callers asked.now
        → Plans (row_of callers asked.now.words asked.now.holders asked.now.thread asked.now.tick call.now) result }
{
    match call {
        Kcall::Delete {
            id,
            parent,
            link,
            guard,
        } => delete(alloc, asked, *id, *parent, *link, *guard),
        Kcall::Merge {
            child,
            parent,
            pages,
            link,
            guard,
        } => merge(alloc, asked, *child, *parent, pages, *link, *guard),
        _ => unreachable!(),
    }
}
