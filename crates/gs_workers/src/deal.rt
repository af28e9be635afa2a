//! Deals futures to groups in turns, and gathers what they gave.
ghost use Rattle.std.specs.Prelude.{◌≡◌, ◌≤◌, ◌≢◌, IfOk, List, MatchOption, [], ◌∷◌, ◌++◌};
ghost use Rattle.std.specs.List.{AllByRecursion, AllZip};
ghost use Rattle.std.specs.VecDeque.{deque_len};
ghost use Rattle.futures.specs.declared.future.made.maybe_done.MaybeDone.TheVariants.{Done, Future as FutureValue};
ghost use Rattle.gs_workers.specs.Deals.{IsDealt, lists_of};
ghost use Rattle.gs_workers.specs.Groups.{EndsAs};

use futures::Future;
use futures::future::MaybeDone;
use std::alloc::{AllocError, Global};
use std::collections::VecDeque;

/// The groups that futures are dealt to.
pub type Groups<F, T> = VecDeque<Vec<MaybeDone<F, T>>>;

/// Deals the futures to `count` groups in turns: the one at place i goes to the group at place i mod `count`. In each group those
/// with the lowest places stand last.
///
/// # Errors
/// `AllocError` if memory runs out.
pub fn deal<F: Future<Output: Drop>>(
    alloc: Global,
    count: usize,
    mut futures: Vec<F>,
) -> Result<Groups<F, F::Output>, AllocError>
    requires { 1 ≤ count }
    ensures len { IfOk result (λ groups. deque_len groups ≡ count) }
    ensures dealt { IfOk result (λ groups.
        IsDealt (λ future member. member ≡ FutureValue future) futures.items (lists_of groups.items)) }
{
    let mut groups = empty_groups(alloc, count)?;
    while let Some(future) = futures.pop() {
        let Some(mut group) = groups.pop_back() else {
            unreachable!()
        };
        group.push(MaybeDone::Future(future))?;
        groups.push_front(group)?;
    }
    Ok(groups)
}

fn empty_groups<M: Drop>(alloc: Global, count: usize) -> Result<VecDeque<Vec<M>>, AllocError>
    ensures len { IfOk result (λ groups. deque_len groups ≡ count) }
    ensures empty { IfOk result (λ groups. AllByRecursion (λ group. group ≡ []) (lists_of groups.items)) }
{
    let mut groups = VecDeque::with_capacity(alloc, count)?;
    for _ in 0..count {
        groups.push_back(Vec::new(alloc))?;
    }
    Ok(groups)
}

/// Returns the outputs of futures that were dealt and are done, in the order of the futures.
///
/// # Errors
/// `AllocError` if memory runs out.
pub fn gather<F: Future<Output: Drop>>(
    alloc: Global,
    mut groups: Groups<F, F::Output>,
) -> Result<Vec<F::Output>, AllocError>
    ensures { IfOk result (λ outputs. (futures : List F)
        → IsDealt (λ future member. EndsAs F.gives (FutureValue future) member) futures (lists_of groups.items)
        → AllZip F.gives futures outputs.items) }
{
    let mut outputs = Vec::new(alloc);
    while let Some(mut group) = groups.pop_front() {
        let Some(output) = pop_output(&mut group) else {
            return Ok(outputs);
        };
        groups.push_back(group)?;
        outputs.push(output)?;
    }
    Ok(outputs)
}

/// Takes the last output out of a group. It returns None if the group is empty or its last future is not done.
fn pop_output<F: Drop, T: Drop>(group: &mut Vec<MaybeDone<F, T>>) -> Option<T>
    ensures { MatchOption result ((below : _) (output : T) → group.old.items ≢ below ++ Done output ∷ [])
        (λ output. group.old.items ≡ group.new.items ++ Done output ∷ []) }
{
    let mut last = group.pop()?;
    last.take_output()
}
