//! Mailboxes: selective receive skips messages and takes one out of their middle. Each test owns one mailbox, and lends it.

use beam_mailbox::Mailbox;
use beam_term::Term;
use std::process::Abort;
use std::test::Fail;

/// Delivers the integers from 0 on.
fn fill(mailbox: &mut Mailbox, count: u32) -> Result<(), Fail> {
    for n in 0..count {
        mailbox.deliver(Term::integer(i64::from(n)))?;
    }
    Ok(())
}

fn is_at(mailbox: &Mailbox, n: i64) -> bool {
    match mailbox.peek() {
        Some(message) => message.as_integer() == Some(n),
        None => false,
    }
}

/// Takes the message at the save pointer out, and answers its integer.
fn take(mailbox: &mut Mailbox) -> Option<i64> {
    let n = mailbox.peek()?.as_integer();
    if mailbox.remove() { n } else { None }
}

fn skip_messages(rt: &impl Abort, mailbox: &mut Mailbox) -> Result<(), Fail> {
    fill(mailbox, 3)?;
    mailbox.next();
    assert!(rt; is_at(mailbox, 1));
    assert_eq!(rt; take(mailbox), Some(1));
    assert!(rt; is_at(mailbox, 0));
    mailbox.next();
    assert!(rt; is_at(mailbox, 2));
    mailbox.next();
    assert!(rt; mailbox.peek().is_none());
    assert!(rt; !mailbox.remove());
    mailbox.next();
    assert_eq!(rt; mailbox.position(), 2);
    mailbox.reset();
    assert_eq!(rt; take(mailbox), Some(0));
    assert_eq!(rt; mailbox.len(), 1);
    Ok(())
}

#[test]
fn a_skipped_message_stays(rt: HostRuntime) -> Result<(), Fail> {
    let mut mailbox = Mailbox::new(rt.alloc());
    skip_messages(&rt, &mut mailbox)
}

fn is_copy_at(mailbox: &Mailbox, n: i64) -> Result<bool, Fail> {
    let copy = mailbox.try_copy()?;
    Ok(is_at(&copy, n))
}

fn deliver_at_the_end(rt: &impl Abort, mailbox: &mut Mailbox) -> Result<(), Fail> {
    fill(mailbox, 1)?;
    mailbox.next();
    assert!(rt; mailbox.peek().is_none());
    mailbox.deliver(Term::integer(9))?;
    assert!(rt; is_at(mailbox, 9));
    assert!(rt; is_copy_at(mailbox, 9)?);
    Ok(())
}

#[test]
fn a_message_is_put_last(rt: HostRuntime) -> Result<(), Fail> {
    let mut mailbox = Mailbox::new(rt.alloc());
    deliver_at_the_end(&rt, &mut mailbox)
}

/// Skips all messages but the last, and takes that one. The others stay.
fn take_last(mailbox: &mut Mailbox) -> Option<i64> {
    for _ in 1..mailbox.len() {
        mailbox.next();
    }
    take(mailbox)
}

fn take_from_the_end(rt: &impl Abort, mailbox: &mut Mailbox) {
    for n in 0..100u32 {
        assert_eq!(rt; take_last(mailbox), Some(i64::from(99_999 - n)));
    }
}

fn take_from_the_middle(rt: &impl Abort, mailbox: &mut Mailbox) {
    for _ in 0..50 {
        for _ in 0..40_000 {
            mailbox.next();
        }
        assert!(rt; mailbox.remove());
    }
}

/// Takes these integers out, one after the other.
fn take_from_the_start(rt: &impl Abort, mailbox: &mut Mailbox, first: u32, end: u32) {
    for n in first..end {
        assert_eq!(rt; take(mailbox), Some(i64::from(n)));
    }
}

fn take_from_everywhere(rt: &impl Abort, mailbox: &mut Mailbox) -> Result<(), Fail> {
    fill(mailbox, 100_000)?;
    take_from_the_end(rt, mailbox);
    take_from_the_middle(rt, mailbox);
    take_from_the_start(rt, mailbox, 0, 40_000);
    assert_eq!(rt; mailbox.len(), 100_000 - 100 - 50 - 40_000);
    Ok(())
}

#[test]
fn large_mailboxes_are_fast(rt: HostRuntime) -> Result<(), Fail> {
    let mut mailbox = Mailbox::new(rt.alloc());
    take_from_everywhere(&rt, &mut mailbox)
}

fn take_from_both(rt: &impl Abort, mailbox: &mut Mailbox, copy: &mut Mailbox) -> Result<(), Fail> {
    take_from_the_start(rt, copy, 0, 300);
    copy.deliver(Term::integer(600))?;
    assert_eq!(rt; copy.len(), 301);
    take_from_the_start(rt, mailbox, 0, 600);
    take_from_the_start(rt, copy, 300, 601);
    assert_eq!(rt; mailbox.len(), 0);
    assert_eq!(rt; copy.len(), 0);
    Ok(())
}

fn copy_and_take(rt: &impl Abort, mailbox: &mut Mailbox) -> Result<(), Fail> {
    fill(mailbox, 600)?;
    let mut copy = mailbox.try_copy()?;
    take_from_both(rt, mailbox, &mut copy)
}

#[test]
fn a_copy_has_its_own_messages(rt: HostRuntime) -> Result<(), Fail> {
    let mut mailbox = Mailbox::new(rt.alloc());
    copy_and_take(&rt, &mut mailbox)
}

/// Puts a copy in its place.
fn replace_by_copy(mailbox: &mut Mailbox) -> Result<(), Fail> {
    *mailbox = mailbox.try_copy()?;
    Ok(())
}

fn take_from_copies(rt: &impl Abort, mailbox: &mut Mailbox) -> Result<(), Fail> {
    fill(mailbox, 100_000)?;
    for _ in 0..5_000 {
        replace_by_copy(mailbox)?;
        assert!(rt; mailbox.remove());
    }
    assert_eq!(rt; mailbox.len(), 95_000);
    Ok(())
}

#[test]
fn copies_of_large_mailboxes_are_fast(rt: HostRuntime) -> Result<(), Fail> {
    let mut mailbox = Mailbox::new(rt.alloc());
    take_from_copies(&rt, &mut mailbox)
}
