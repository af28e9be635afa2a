ghost use Rattle.std.specs.Prelude.{◌≡◌, true};
ghost use Rattle.std.specs.List.{AllByRecursion, AllZip};
ghost use Rattle.futures.specs.Joined.{IsDone};
ghost use Rattle.futures.specs.Task.{Keeps};
ghost use Rattle.gs_workers.specs.Groups.{AllEnd, AllLive, GivesNoMore};

use futures::Future;
use futures::future::MaybeDone;
use futures::task::{Context, Poll};
use std::{mem, thread};

/// Futures that run side by side, as one future. `T` is their output. A poll polls each of them that is not done, in order. Once
/// each is done, it gives them all, in order.
#[derive(Drop)]
pub struct Group<F, T> {
    pub members: Vec<MaybeDone<F, T>>,
}

impl<F: Future<Output: Drop>> Future for Group<F, F::Output> {
    type Output = Vec<MaybeDone<F, F::Output>>;

    ghost can_poll = { λ group. AllLive F.can_poll group.members.items };

    ghost gives = { λ group ended. AllEnd F.gives group.members.items ended.items };

    fn poll(&mut self, cx: &mut Context<'_>) -> Poll<Vec<MaybeDone<F, F::Output>>> {
        if !advance_all(self.members.as_mut_slice(), cx) {
            // What is awaited comes from other threads, which may have no processor yet.
            thread::yield_now();
            return cx.yield_now();
        }
        let none = Vec::new(*self.members.allocator());
        Poll::Ready(mem::replace(&mut self.members, none))
    }
}

/// Polls each member that is not done, and returns whether all are done then.
fn advance_all<F: Future<Output: Drop>>(
    members: &mut [MaybeDone<F, F::Output>],
    cx: &mut Context<'_>,
) -> bool
    requires { AllLive F.can_poll members.old }
    ensures live { AllLive F.can_poll members.new }
    ensures same { AllZip (GivesNoMore F.gives) members.old members.new }
    ensures done { result ≡ true → AllByRecursion IsDone members.new }
    ensures kept { Keeps cx.old cx.new }
{
    let mut all_done = true;
    for i in 0..members.len() {
        all_done &= members[i].advance(cx);
    }
    all_done
}
