// What a call gives.
ghost use Rattle.std.specs.Prelude.{◌≡◌};

use tr_types::{Action, Mark, Path, Reply, Right};

/// What a call does next.
#[derive(Debug, Drop)]
pub enum OpStep {
    /// An action and what it is for. The next call is told its answer, and the tick at which it was made.
    Act(Action, Mark),
    Over(Reply),
    /// A coffer is to be mapped with this right. Meanwhile no window is open. The next call is told the answer of that Map.
    Elsewhere {
        path: Path,
        right: Right,
        exclusive: bool,
    },
}

pub(crate) fn load(addr: u64, mark: Mark) -> OpStep
    ensures { result ≡ OpStep.Act (Action.Load addr) mark }
{
    OpStep::Act(Action::Load(addr), mark)
}

pub(crate) fn store(addr: u64, word: u64) -> OpStep
    ensures { result ≡ OpStep.Act (Action.Store addr word) Mark.Plain }
{
    OpStep::Act(Action::Store(addr, word), Mark::Plain)
}

pub(crate) fn damaged(addr: u64) -> OpStep
    ensures { result ≡ OpStep.Over (Reply.Damaged addr) }
{
    OpStep::Over(Reply::Damaged { addr })
}

pub(crate) fn expired(addr: u64, word: u64) -> OpStep
    ensures { result ≡ OpStep.Over (Reply.Expired addr word) }
{
    OpStep::Over(Reply::Expired { addr, word })
}

pub(crate) fn busy(addr: u64, word: u64, now: u32) -> OpStep
    ensures { result ≡ OpStep.Over (Reply.Busy addr word now) }
{
    OpStep::Over(Reply::Busy { addr, word, now })
}
