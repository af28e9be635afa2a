//! Pieces that cross between two threads.
use crate::tests::ends::answers::is_piece;
use crate::tests::ends::links::narrow;
use bytes::Bytes;
use gs_link::{Item, LinkRx, LinkTx, SendRefused, Taken};
use std::alloc::Global;
use std::sync::Wait;
use std::test::*;
use std::thread;

/// How many pieces go between two threads.
const PIECES: u32 = 10_000;

/// How often one piece is tried before a thread gives up.
const TRIES: u32 = 10_000_000;

/// Sends the item, as soon as there is room for it.
fn send_at_last<R: Wait>(rt: &R, tx: &mut LinkTx, mut item: Item) -> bool {
    for _ in 0..TRIES {
        if !item.is_sendable() {
            return false;
        }
        match tx.send(rt, item) {
            Ok(()) => return true,
            Err(SendRefused::Full(back)) => item = back,
            Err(SendRefused::Closed(_)) => return false,
        }
        thread::yield_now();
    }
    false
}

/// Closes the link, as soon as there is room for the close.
fn close_at_last<R: Wait>(rt: &R, tx: &mut LinkTx) -> bool {
    for _ in 0..TRIES {
        if tx.close(rt).is_ok() {
            return true;
        }
        thread::yield_now();
    }
    false
}

/// Sends a number as a piece of four bytes; whether it was accepted.
fn send_number<R: Wait>(rt: &R, alloc: Global, tx: &mut LinkTx, number: u32) -> bool {
    match Bytes::copy_from_slice(alloc, &number.to_le_bytes()) {
        Ok(bytes) => send_at_last(rt, tx, Item::Piece(bytes)),
        Err(_) => false,
    }
}

/// Sends each number; whether all of them were accepted.
fn send_each<R: Wait>(rt: &R, alloc: Global, tx: &mut LinkTx) -> bool {
    for number in 0..PIECES {
        if !send_number(rt, alloc, tx, number) {
            return false;
        }
    }
    true
}

/// Sends each number, and then closes; whether all of it was accepted.
fn send_numbers<R: Wait>(rt: &R, alloc: Global, mut tx: LinkTx) -> bool {
    send_each(rt, alloc, &mut tx) && close_at_last(rt, &mut tx)
}

/// Takes what comes, as soon as it comes. Empty where nothing came.
fn take_at_last<R: Wait>(rt: &R, rx: &mut LinkRx) -> Taken {
    for _ in 0..TRIES {
        match rx.take(rt) {
            Taken::Empty => thread::yield_now(),
            taken => return taken,
        }
    }
    Taken::Empty
}

/// Whether the piece that comes is this number.
fn take_number<R: Wait>(rt: &R, rx: &mut LinkRx, number: u32) -> bool {
    let taken = take_at_last(rt, rx);
    is_piece(&taken, &number.to_le_bytes())
}

/// Whether the close comes.
fn take_close<R: Wait>(rt: &R, rx: &mut LinkRx) -> bool {
    matches!(take_at_last(rt, rx), Taken::Closed)
}

/// Whether the pieces that come are the numbers in order.
fn take_each<R: Wait>(rt: &R, rx: &mut LinkRx) -> bool {
    for number in 0..PIECES {
        if !take_number(rt, rx, number) {
            return false;
        }
    }
    true
}

/// Whether the numbers come in order, and the close comes after them.
fn take_numbers<R: Wait>(rt: &R, mut rx: LinkRx) -> bool {
    take_each(rt, &mut rx) && take_close(rt, &mut rx)
}

#[test]
fn ten_thousand_pieces_cross_between_two_threads_in_order(rt: HostRuntime) -> Result<(), Fail> {
    let alloc = rt.alloc();
    let (tx, rx) = narrow(alloc)?;
    let (sent, taken) = thread::join(
        &rt,
        move || send_numbers(&rt, alloc, tx),
        move || take_numbers(&rt, rx),
    );
    assert!(rt; sent);
    assert!(rt; taken);
    Ok(())
}
