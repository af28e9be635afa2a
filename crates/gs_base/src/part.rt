//! The parts that RPCs have lists of, and one part within a shared RPC.
ghost use Rattle.std.specs.Prelude.{◌≡◌, ◌<◌, List, length, None, IfOk};
ghost use Rattle.gs_base.specs.declared.rpc.Rpc.{Rpc as RpcValue};
ghost use Rattle.gs_base.specs.Rpcs.{part_at};

use crate::exact::{ExactClone, clone_of};
use crate::rpc::{Message, Rpc, SubOpt};
use crate::seq::Seq;
use crate::shared::Shared;
use std::alloc::{AllocError, Global};
use std::fmt::{Debug, Error, Formatter, Write};
use std::marker::{Model, PhantomData};

/// A kind of part that an RPC has a list of: changes of subscription, messages, and each kind of control message.
pub trait Part: Drop {
    /// The list of an RPC.
    ghost parts: { RpcValue → List Self };

    /// A part without any field. It stands for a part at a place where the list has none.
    ghost bare: { Self };

    /// The list of an RPC.
    fn parts_of(rpc: &Rpc) -> &[Self]
        ensures { result.now ≡ parts rpc.now };
}

impl Part for SubOpt {
    ghost parts = { λ rpc. rpc.subs };

    ghost bare = { record { subscribe = None; topic = None } };

    fn parts_of(rpc: &Rpc) -> &[SubOpt] {
        rpc.subs.as_slice()
    }
}

impl Part for Message {
    ghost parts = { λ rpc. rpc.publish };

    ghost bare = { record { origin = None; payload = None; seqno = None; topic = None; signature = None; key = None } };

    fn parts_of(rpc: &Rpc) -> &[Message] {
        rpc.publish.as_slice()
    }
}

/// One part of a shared RPC. A holder of the part holds the RPC, and a clone copies nothing. Contracts see the part, but
/// neither the RPC nor the part's place in it.
#[derive(Drop)]
pub struct SharedPart<P: Part> {
    rpc: Shared<Rpc>,
    place: usize,
    kind: PhantomData<P>,
}

impl<P: Part> Model for SharedPart<P> {
    ghost use Rattle.std.specs.Prelude.{◌<◌, length};
    ghost use Rattle.gs_base.specs.Rpcs.{part_at};

    ghost Value = { P };

    ghost coded = { P.code };

    ghost view = { λ s. part_at P.bare (P.parts s.rpc) s.place };

    ghost invariant = { λ s. s.place < length (P.parts s.rpc) };
}

impl<P: Part> SharedPart<P> {
    /// Returns the part at a place of an RPC's list, counted from 0.
    pub fn at(rpc: Shared<Rpc>, place: usize) -> SharedPart<P>
        requires { place < length (P.parts rpc) }
        ensures { result ≡ part_at P.bare (P.parts rpc) place }
    {
        SharedPart {
            rpc,
            place,
            kind: PhantomData,
        }
    }

    /// Returns the part.
    pub fn get(&self) -> &P
        ensures { result.now ≡ self.now }
    {
        &P::parts_of(self.rpc.get())[self.place]
    }
}

impl Message {
    /// Returns the message as a shared part, in an RPC without other parts.
    ///
    /// # Errors
    /// `AllocError` when out of memory.
    pub fn share(self, alloc: Global) -> Result<SharedPart<Message>, AllocError>
        ensures { IfOk result (λ shared. shared ≡ self) }
    {
        let rpc = Rpc {
            publish: Seq::only(alloc, self)?,
            ..Rpc::empty(alloc)
        };
        Ok(SharedPart::at(Shared::new(alloc, rpc)?, 0))
    }
}

impl<P: Part> Clone for SharedPart<P> {
    ghost is_clone = { λ source copy. copy ≡ source };

    fn clone(&self) -> Result<SharedPart<P>, AllocError> {
        Ok(SharedPart {
            rpc: clone_of(&self.rpc)?,
            place: self.place,
            kind: PhantomData,
        })
    }
}

impl<P: Part> ExactClone for SharedPart<P> {
    ghost exact = { λ source copy same. same };
}

impl<P: Part + PartialEq> PartialEq for SharedPart<P> {
    ghost eq = { P.eq };

    ghost laws = { P.laws };

    fn eq(&self, other: &SharedPart<P>) -> bool {
        self.get() == other.get()
    }
}

impl<P: Part + Eq> Eq for SharedPart<P> {
    ghost laws = { P.Eq.laws };
}

/// Shows the part only.
impl<P: Part + Debug> Debug for SharedPart<P> {
    fn fmt<W: Write>(&self, formatter: &mut Formatter<W>) -> Result<(), Error> {
        self.get().fmt(formatter)
    }
}
