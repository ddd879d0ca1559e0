//! Messages of a reference.
ghost use Rattle.std.specs.Prelude.{◌≡◌, slice_get};
ghost use Rattle.std.specs.Option.{option_copied};
ghost use Rattle.beam_model.specs.Mailbox.{message_at, without_first};
ghost use Rattle.beam_machine.specs.Row.{is_this_term, is_of_reference};
ghost use Rattle.beam_mailbox.specs.Messages.{is_one_of_reference};

use crate::Mailbox;
use beam_term::Term;

fn is_this_term(wanted: &Term, term: Option<&Term>) -> bool
    ensures { result ≡ is_this_term wanted.now (option_copied term.entry) }
{
    match term {
        Some(term) => term == wanted,
        None => false,
    }
}

fn second(items: &[Term]) -> Option<&Term>
    ensures { option_copied result ≡ slice_get items.now 1 }
{
    items.get(1)
}

/// Whether a message is a tuple of five, and this reference its second element.
#[tactic(auto, using(crate::proofs::Flushed::of_tuple, crate::proofs::Flushed::of_five, crate::proofs::Flushed::of_none))]
fn is_of_reference(reference: &Term, message: &Term) -> bool
    ensures { result ≡ is_of_reference reference.now message.now }
{
    match message.as_tuple() {
        Some(items) => items.len() == 5 && is_this_term(reference, second(items)),
        None => false,
    }
}

/// Whether a message of a reference is at the save pointer.
fn is_at(mailbox: &Mailbox, reference: &Term) -> bool
    ensures { result ≡ is_one_of_reference reference.now (message_at mailbox.now) }
{
    match mailbox.peek() {
        Some(message) => is_of_reference(reference, message),
        None => false,
    }
}

/// Takes out the first message of a reference, if there is one. The save pointer moves.
pub(crate) fn take_first(mailbox: &mut Mailbox, reference: &Term)
    ensures { mailbox.new.messages ≡ without_first (is_of_reference reference.now) mailbox.old.messages }
{
    mailbox.reset();
    while mailbox.position() < mailbox.len() {
        if is_at(mailbox, reference) {
            mailbox.remove();
            return;
        }
        mailbox.next();
    }
}
