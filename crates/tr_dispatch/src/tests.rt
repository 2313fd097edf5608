// The first step of a session. Whole sessions are shown by scripts.
use crate::{Session, SessionStep};
use std::alloc::AllocError;
use tr_types::{Action, Command, Cred, Kcall, Mark, Path};

fn is_find(step: &SessionStep) -> bool {
    match step {
        SessionStep::Act(Action::Kernel(call), Mark::Plain) => {
            matches!(call.get(), Kcall::Find { .. })
        }
        _ => false,
    }
}

#[test]
fn the_first_step_is_a_look(rt: HostRuntime) -> Result<(), AllocError> {
    let path = Path::new(Vec::from_slice(rt.alloc(), b"/")?);
    let mut session = Session::begin(0, Cred::new(0, 0), Command::Stat { path });
    let step = session.next(rt.alloc(), None, 0)?;
    assert!(rt; is_find(&step));
    Ok(())
}
