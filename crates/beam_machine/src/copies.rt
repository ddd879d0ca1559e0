//! Copies of events and replies.
ghost use Rattle.std.specs.Prelude.{◌≡◌, ◌≤◌, IfOk, length, vec_len};

use crate::event::{Event, Images, NumberList, Reply, SpawnArguments, Then};
use beam_term::Term;
use std::alloc::{AllocError, Global};

/// What can be copied, where memory may be refused.
pub trait TryCopy {
    ghost use Rattle.std.specs.Prelude.{◌≡◌, IfOk};

    /// An equal value. It fails only for memory.
    fn try_copy(&self, alloc: Global) -> Result<Self, AllocError>
    where
        Self: Sized,
        ensures { IfOk result (λ copy. copy ≡ self.now) };
}

/// Equal terms, in their order.
fn copy_terms(alloc: Global, terms: &[Term]) -> Result<Vec<Term>, AllocError>
    ensures { IfOk result (λ copies. copies.items ≡ terms.now) }
{
    let mut copies = Vec::with_capacity(alloc, terms.len())?;
    for term in terms {
        copies.push(term.clone()?)?;
    }
    Ok(copies)
}

impl TryCopy for SpawnArguments {
    fn try_copy(&self, alloc: Global) -> Result<SpawnArguments, AllocError> {
        let items = copy_terms(alloc, self.as_slice())?;
        match SpawnArguments::new(items) {
            Some(terms) => Ok(terms),
            None => unreachable!(),
        }
    }
}

impl TryCopy for Then {
    fn try_copy(&self, _alloc: Global) -> Result<Then, AllocError> {
        Ok(match self {
            Then::GoesOn => Then::GoesOn,
            Then::Waits => Then::Waits,
            Then::Ended { reason, value } => Then::Ended {
                reason: reason.clone()?,
                value: value.clone()?,
            },
        })
    }
}

impl TryCopy for Reply {
    fn try_copy(&self, alloc: Global) -> Result<Reply, AllocError> {
        Ok(match self {
            Reply::Done => Reply::Done,
            Reply::Changed(changed) => Reply::Changed(*changed),
            Reply::Versions { current, old } => Reply::Versions {
                current: *current,
                old: *old,
            },
            Reply::Upgraded(numbers) => {
                Reply::Upgraded(NumberList::new(numbers.as_slice().to_vec(alloc)?))
            }
            Reply::Started(pid) => Reply::Started(*pid),
            Reply::Ran { count, then } => Reply::Ran {
                count: *count,
                then: then.try_copy(alloc)?,
            },
        })
    }
}

/// Equal images, in their order.
fn copy_images<I: TryCopy + Drop>(alloc: Global, images: &[I]) -> Result<Vec<I>, AllocError>
    ensures { IfOk result (λ copies. copies.items ≡ images.now) }
{
    let mut copies = Vec::with_capacity(alloc, images.len())?;
    for image in images {
        copies.push(image.try_copy(alloc)?)?;
    }
    Ok(copies)
}

impl<I: TryCopy + Drop> TryCopy for Event<I> {
    fn try_copy(&self, alloc: Global) -> Result<Event<I>, AllocError> {
        Ok(match self {
            Event::Load(image) => Event::Load(image.try_copy(alloc)?),
            Event::LoadStrict(image) => Event::LoadStrict(image.try_copy(alloc)?),
            Event::AtomicLoad { mode, images } => Event::AtomicLoad {
                mode: *mode,
                images: Images::new(copy_images(alloc, images.as_slice())?),
            },
            Event::Delete(module) => Event::Delete(module.clone()?),
            Event::SoftPurge(module) => Event::SoftPurge(module.clone()?),
            Event::Purge(module) => Event::Purge(module.clone()?),
            Event::Versions(module) => Event::Versions(module.clone()?),
            Event::Spawn {
                module,
                function,
                arguments,
            } => Event::Spawn {
                module: module.clone()?,
                function: function.clone()?,
                arguments: arguments.try_copy(alloc)?,
            },
            Event::Send { to, message } => Event::Send {
                to: to.clone()?,
                message: message.clone()?,
            },
            Event::Steps { pid, rows } => Event::Steps {
                pid: *pid,
                rows: *rows,
            },
            Event::Deliver { pid } => Event::Deliver { pid: *pid },
            Event::Clock { now } => Event::Clock { now: *now },
            Event::Timeout { pid } => Event::Timeout { pid: *pid },
        })
    }
}
