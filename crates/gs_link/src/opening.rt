ghost use Rattle.std.specs.Prelude.{◌≡◌, [], IfOk};
ghost use Rattle.gs_link.specs.Items.{IsCapacity};

use crate::fault::LinkFault;
use crate::receiver::LinkRx;
use crate::rule::{Queue, SplitReceiver, SplitSender};
use crate::sender::LinkTx;
use std::alloc::Global;
use std::sync::Arc;

/// Opens a link in which up to `capacity` slots wait, 1 to 1,024, and returns its sending end and its taking end. All memory
/// that its calls need is taken here.
///
/// # Errors
/// `NoMemory` if memory runs out.
pub fn open_link(alloc: Global, capacity: usize) -> Result<(LinkTx, LinkRx), LinkFault>
    requires capacity { IsCapacity capacity }
    ensures link { IfOk result (λ ends. ends.1.link ≡ ends.0.link) }
    ensures capacity { IfOk result (λ ends. ends.0.capacity ≡ capacity) }
    ensures same_capacity { IfOk result (λ ends. ends.1.capacity ≡ ends.0.capacity) }
    ensures accepted { IfOk result (λ ends. ends.0.accepted ≡ []) }
    ensures taken { IfOk result (λ ends. ends.1.taken ≡ []) }
{
    let Ok((queue, mut pass)) = Queue::ruled(alloc, capacity) else {
        return Err(LinkFault::NoMemory);
    };
    let sender = queue.another::<SplitSender>(&mut pass);
    let receiver = queue.another::<SplitReceiver>(&mut pass);
    let Ok(queue) = Arc::new(alloc, queue) else {
        return Err(LinkFault::NoMemory);
    };
    let Ok(other) = Arc::try_clone(&queue) else {
        return Err(LinkFault::NoMemory);
    };
    let tx = LinkTx {
        queue,
        end: sender,
        closed: false,
    };
    let rx = LinkRx {
        queue: other,
        end: receiver,
        closed: false,
    };
    Ok((tx, rx))
}
