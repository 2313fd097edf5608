// The entry of a coffer, and whether the caller may act as its owner.
ghost use Rattle.std.specs.Prelude.{◌≡◌, [], ◌∷◌, IfOk};
ghost use Rattle.kern_model.specs.KernelCalls.{Callers};
ghost use Rattle.kern_model.specs.KernelCalls as calls;
ghost use Rattle.kern_roots.specs.Reading.{root_of};
ghost use Rattle.kern_plans.specs.Asked.{HasCred};
ghost use Rattle.kern_plans.specs.Refusals.{TellsFirstDue, own_refused};

use crate::asked::Asked;
use kern_roots::{Root, RootState, entry_of};
use tr_types::{KernAnswer, Perm, Right, refuses};

/// What stands for the entry of a coffer that isn't there.
const NO_ROOT: Root = Root {
    perm: Perm {
        uid: 0,
        gid: 0,
        mode: 0,
    },
    state: RootState::Standing,
    kind: 0,
    control: 0,
    root: 0,
};

/// The entry of a coffer of which the caller has the right Own. `NoCoffer` where there is no such coffer,
/// `Denied` to all but its owner and uid 0.
pub fn owned(asked: &Asked, id: u16) -> Result<Root, KernAnswer>
    ensures refused { (callers : Callers) → HasCred callers asked.now → TellsFirstDue (calls.owner_refused callers asked.now.words asked.now.thread id) result }
    ensures root { IfOk result (λ root. root ≡ root_of (calls.named asked.now.words id)) }
{
    let Some(root) = entry_of(asked.words(), id) else {
        return Err(KernAnswer::NoCoffer);
    };
    check_own(asked, &root)?;
    Ok(root)
}

/// The entry of a coffer that the caller holds for writing, and of which it has the right Own. `NotHeld`
/// and `Denied` where it isn't so.
pub fn held_and_owned(asked: &Asked, id: u16) -> Result<Root, KernAnswer>
    ensures refused { (callers : Callers) → HasCred callers asked.now → TellsFirstDue (calls.split_refused callers asked.now.words asked.now.holders asked.now.thread id) result }
    ensures root { IfOk result (λ root. root ≡ root_of (calls.named asked.now.words id)) }
{
    if !asked.holds_for_writing(id) {
        return Err(KernAnswer::NotHeld);
    }
    let root = named_root(asked, id);
    check_own(asked, &root)?;
    Ok(root)
}

// The caller has the right Own on a coffer, which its owner and uid 0 have. Else `Denied`.
fn check_own(asked: &Asked, root: &Root) -> Result<(), KernAnswer>
    ensures { (callers : Callers) → HasCred callers asked.now → TellsFirstDue (own_refused callers asked.now.thread root.now.perm ∷ []) result }
{
    if refuses(&root.perm, &asked.cred(), Right::OWN) {
        return Err(KernAnswer::Denied {
            right: Right::OWN,
            id: 0,
            path_len: 0,
        });
    }
    Ok(())
}

/// The entry of a coffer, or what stands for it where it isn't there.
pub fn named_root(asked: &Asked, id: u16) -> Root
    ensures { result ≡ root_of (calls.named asked.now.words id) }
{
    match entry_of(asked.words(), id) {
        Some(root) => root,
        None => NO_ROOT,
    }
}
