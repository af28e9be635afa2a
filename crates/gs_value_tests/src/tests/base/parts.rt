//! Parts of an RPC that is shared: the second of each kind. Each list has two.
use crate::tests::base::{message, topic};
use bytes::Bytes;
use gs_base::{
    Control, Graft, IHave, IWant, Message, Part, Prune, Rpc, Seq, Shared, SharedPart, SubOpt,
    clone_of,
};
use std::alloc::{AllocError, Global};

fn pair<T: Drop>(alloc: Global, first: T, second: T) -> Result<Seq<T>, AllocError> {
    let mut list = Seq::new(alloc);
    list.push(first)?;
    list.push(second)?;
    Ok(list)
}

fn sub(alloc: Global, subscribe: bool) -> Result<SubOpt, AllocError> {
    Ok(SubOpt {
        subscribe: Some(subscribe),
        topic: Some(topic(alloc)?),
    })
}

fn ids(alloc: Global, id: &[u8]) -> Result<Seq<Bytes>, AllocError> {
    Seq::only(alloc, Bytes::copy_from_slice(alloc, id)?)
}

fn offer(alloc: Global, id: &[u8]) -> Result<IHave, AllocError> {
    Ok(IHave {
        topic: None,
        ids: ids(alloc, id)?,
    })
}

fn request(alloc: Global, id: &[u8]) -> Result<IWant, AllocError> {
    Ok(IWant {
        ids: ids(alloc, id)?,
    })
}

fn prune(backoff: u64) -> Prune {
    Prune {
        topic: None,
        backoff: Some(backoff),
    }
}

fn graft(alloc: Global) -> Result<Graft, AllocError> {
    Ok(Graft {
        topic: Some(topic(alloc)?),
    })
}

fn control(alloc: Global) -> Result<Control, AllocError> {
    Ok(Control {
        ihave: pair(alloc, offer(alloc, b"x")?, offer(alloc, b"y")?)?,
        iwant: pair(alloc, request(alloc, b"x")?, request(alloc, b"y")?)?,
        graft: pair(alloc, Graft { topic: None }, graft(alloc)?)?,
        prune: pair(alloc, prune(1), prune(2))?,
    })
}

fn rpc(alloc: Global) -> Result<Shared<Rpc>, AllocError> {
    let rpc = Rpc {
        subs: pair(alloc, sub(alloc, true)?, sub(alloc, false)?)?,
        publish: pair(alloc, message(alloc, b"abc")?, message(alloc, b"de")?)?,
        control: Some(control(alloc)?),
    };
    Shared::new(alloc, rpc)
}

/// The part of this kind at a place.
fn part_at<P: Part>(rpc: &Shared<Rpc>, place: usize) -> Result<Option<SharedPart<P>>, AllocError> {
    let rpc = clone_of(rpc)?;
    if place < P::parts_of(rpc.get()).len() {
        return Ok(Some(SharedPart::at(rpc, place)));
    }
    Ok(None)
}

/// Whether the second part of this kind is this one, is its clone, and differs from the first one.
fn is_second<P: Part + PartialEq>(rpc: &Shared<Rpc>, wanted: &P) -> Result<bool, AllocError> {
    let (Some(first), Some(second)) = (part_at::<P>(rpc, 0)?, part_at::<P>(rpc, 1)?) else {
        return Ok(false);
    };
    let copy = clone_of(&second)?;
    Ok(second.get() == wanted && copy == second && first != second)
}

/// Whether the second part of each kind is.
fn have_their_places(alloc: Global, rpc: &Shared<Rpc>) -> Result<bool, AllocError> {
    Ok(
        is_second(rpc, &sub(alloc, false)?)?
            && is_second(rpc, &message(alloc, b"de")?)?
            && is_second(rpc, &offer(alloc, b"y")?)?
            && is_second(rpc, &request(alloc, b"y")?)?
            && is_second(rpc, &graft(alloc)?)?
            && is_second(rpc, &prune(2))?,
    )
}

#[test]
fn a_part_is_the_one_at_its_place(rt: HostRuntime) -> Result<(), AllocError> {
    let rpc = rpc(rt.alloc())?;
    let placed = have_their_places(rt.alloc(), &rpc);
    drop(rpc);
    assert!(rt; placed?);
    Ok(())
}

/// Whether an RPC without control messages has none of these.
fn has_none<P: Part>(alloc: Global) -> bool {
    P::parts_of(&Rpc::empty(alloc)).is_empty()
}

#[test]
fn an_empty_rpc_has_no_part(rt: HostRuntime) -> Result<(), AllocError> {
    let alloc = rt.alloc();
    assert!(rt; has_none::<SubOpt>(alloc) && has_none::<Message>(alloc));
    assert!(rt; has_none::<IHave>(alloc) && has_none::<IWant>(alloc));
    assert!(rt; has_none::<Graft>(alloc) && has_none::<Prune>(alloc));
    Ok(())
}

/// Whether a PRUNE with a backoff of more than a day has one of a day.
fn prunes_for_a_day(alloc: Global) -> Result<bool, AllocError> {
    let topic = topic(alloc)?;
    let (long, day) = (
        Rpc::pruning(alloc, &topic, 86_401),
        Rpc::pruning(alloc, &topic, 86_400),
    );
    drop(topic);
    Ok(long? == day?)
}

#[test]
fn a_backoff_is_sent_up_to_a_day(rt: HostRuntime) -> Result<(), AllocError> {
    assert!(rt; prunes_for_a_day(rt.alloc())?);
    Ok(())
}

/// Whether a message that is shared by itself is the message.
fn is_shared_alone(alloc: Global) -> Result<bool, AllocError> {
    let shared = message(alloc, b"abc")?.share(alloc)?;
    Ok(*shared.get() == message(alloc, b"abc")?)
}

/// Whether a list whose spare memory was given back has its elements.
fn keeps_its_elements(alloc: Global) -> Result<bool, AllocError> {
    let mut list = pair(alloc, 1u8, 2)?;
    list.push(3)?;
    list.shrink_to_fit();
    Ok(list.as_slice() == [1, 2, 3].as_slice())
}

#[test]
fn sharing_and_shrinking_change_nothing(rt: HostRuntime) -> Result<(), AllocError> {
    assert!(rt; is_shared_alone(rt.alloc())?);
    assert!(rt; keeps_its_elements(rt.alloc())?);
    Ok(())
}
