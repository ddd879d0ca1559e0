//! A seat, a ticket and a drain receipt, and the keeper that gives them.
ghost use Rattle.std.specs.Prelude.{◌≡◌, ◌+◌, [], ◌∷◌, ◌++◌, length, Some};
ghost use Rattle.beam_machine.specs.declared.debug.DebugEvent.TheVariants.{Resume};
ghost use Rattle.beam_receipts.specs.Receipts.{of_seat};

use beam_receipts::brand::{GhostEntry, GhostOrigin, NodeBrand};
use beam_receipts::keeper::{Keeper, UnbrandedKeeper};
use beam_receipts::seat::SeatReceipt;
use beam_receipts::ticket::TicketReceipt;
use std::marker::Brand;
use std::process::Abort;
use std::test::*;

/// Enters an event of a seat, which resumes a process.
fn resume<B: NodeBrand, E: GhostEntry>(keeper: &mut Keeper<B>, seat: &mut SeatReceipt<B>, pid: u32)
    requires event { E.entry.event ≡ Resume pid }
    requires seat { E.entry.seat ≡ Some seat.old.number }
    ensures keeper { keeper.new ≡ record keeper.old { journal = keeper.old.journal ++ E.entry ∷ [] } }
    ensures seat { seat.new.number ≡ seat.old.number }
    ensures kept { length seat.new.kept ≡ length seat.old.kept + 1 }
{
    keeper.enter_for_seat::<E>(seat);
}

/// Checks a process out.
fn hand_out<B: NodeBrand, O: GhostOrigin>(keeper: &mut Keeper<B>, pid: u32) -> TicketReceipt<B>
    requires { O.origin.pid ≡ pid }
    ensures ticket { (result.serial ≡ length keeper.old.checkouts) × (result.origin.pid ≡ pid) }
    ensures keeper { keeper.new.journal ≡ keeper.old.journal }
{
    keeper.check_out::<O>()
}

/// A seat resumes a process, and the process is checked out.
fn scenario<B: NodeBrand>(
    unbranded: UnbrandedKeeper,
    pid: u32,
) -> (Keeper<B>, SeatReceipt<B>, TicketReceipt<B>)
    requires { unbranded ≡ B.table }
    ensures seat { result.1.number ≡ 0 }
    ensures journal { length result.0.journal ≡ 3 }
    ensures kept { length (of_seat 0 result.0.journal) ≡ 2 }
    ensures ticket { result.2.origin.pid ≡ pid }
{
    let mut keeper = unbranded.branded::<B>();
    let mut seat = keeper.seat();
    resume::<B, Brand>(&mut keeper, &mut seat, pid);
    let ticket = hand_out::<B, Brand>(&mut keeper, pid);
    keeper.enter_for_seat::<Brand>(&mut seat);
    keeper.enter_without_seat::<Brand>();
    keeper.check_seats();
    keeper.check_seat(&mut seat);
    (keeper, seat, ticket)
}

/// A value that is sent to another thread, or put under a lock.
fn sent<T: Send>(value: T) -> T
    ensures { result ≡ value }
{
    value
}

fn check_receipts<B: NodeBrand + Send, R: Abort>(
    rt: &R,
    unbranded: UnbrandedKeeper,
) -> Result<(), Fail>
    requires { unbranded ≡ B.table }
{
    let (keeper, seat, ticket) = sent(scenario::<B>(sent(unbranded), 7));
    let mut keeper = keeper;
    assert!(rt; seat.number() == 0 && keeper.given() == 1 && ticket.serial() == 0);
    keeper.redeem(ticket);
    Ok(())
}

#[test]
fn a_seat_and_a_ticket(rt: HostRuntime) -> Result<(), Fail> {
    check_receipts::<Brand, _>(&rt, UnbrandedKeeper::new(rt.alloc())?)
}

/// A receipt claims the entries that there are when they leave memory, and one that was given later claims none.
fn check_drain<B: NodeBrand + Send, R: Abort>(
    rt: &R,
    unbranded: UnbrandedKeeper,
) -> Result<(), Fail>
    requires { unbranded ≡ B.table }
{
    let (keeper, _seat, _ticket) = scenario::<B>(unbranded, 7);
    let mut keeper = keeper;
    let mut receipt = sent(keeper.drain_receipt());
    let before = receipt.count();
    keeper.drain(&mut receipt, 3);
    let later = keeper.drain_receipt();
    assert_eq!(rt; (before, receipt.count(), later.count()), (0, 3, 0));
    Ok(())
}

#[test]
fn a_drain_receipt(rt: HostRuntime) -> Result<(), Fail> {
    check_drain::<Brand, _>(&rt, UnbrandedKeeper::new(rt.alloc())?)
}
