use crate::purse::Purse;
use apdu::{Application, Header};
use std::process::Abort;

const BALANCE: [u8; 4] = [0x80, 0x50, 0, 0];

const CREDIT: [u8; 4] = [0x80, 0x52, 0, 0];

const DEBIT: [u8; 4] = [0x80, 0x54, 0, 0];

// Runs a command, and holds its answer bytes and its status to what is expected.
fn replies(rt: &impl Abort, purse: &mut Purse, header: [u8; 4], body: &[u8], expected: &[u8]) {
    let mut buffer = [0xee; 256];
    let (count, status) = purse.run(Header::from(header), body, &mut buffer);
    assert!(rt; count <= 4 && count + 2 == expected.len());
    assert_eq!(rt; &buffer[0..count], &expected[0..count]);
    assert_eq!(rt; status.sw1(), expected[count]);
    assert_eq!(rt; status.sw2(), expected[count + 1]);
}

// One purse goes through all of these.
#[test]
fn commands(rt: HostRuntime) {
    let turns: [([u8; 4], &[u8], &[u8]); 20] = [
        (BALANCE, &[], &[0, 0, 0, 0, 0x90, 0x00]),
        (CREDIT, &[0, 0, 0x01, 0xf4], &[0, 0, 0x01, 0xf4, 0x90, 0x00]),
        (DEBIT, &[0, 0, 0x01, 0xf4], &[0, 0, 0, 0, 0x90, 0x00]),
        // 1 from 0
        (DEBIT, &[0, 0, 0, 1], &[0x69, 0x85]),
        // amounts of 0, of 1,000,001 and of 4,294,967,295
        (CREDIT, &[0, 0, 0, 0], &[0x6a, 0x80]),
        (CREDIT, &[0, 0x0f, 0x42, 0x41], &[0x6a, 0x80]),
        (DEBIT, &[0xff, 0xff, 0xff, 0xff], &[0x6a, 0x80]),
        // 1,000,000 and 1 more
        (
            CREDIT,
            &[0, 0x0f, 0x42, 0x40],
            &[0, 0x0f, 0x42, 0x40, 0x90, 0x00],
        ),
        (CREDIT, &[0, 0, 0, 1], &[0x69, 0x85]),
        // wrong lengths
        (CREDIT, &[0, 0, 1], &[0x67, 0x00]),
        (DEBIT, &[0, 0, 0, 0, 1], &[0x67, 0x00]),
        (BALANCE, &[0], &[0x67, 0x00]),
        // each check before those that follow it
        ([0x00, 0x51, 0, 1], &[0], &[0x6e, 0x00]),
        ([0x00, 0x50, 0, 0], &[], &[0x6e, 0x00]),
        ([0x80, 0x51, 0, 1], &[0], &[0x6d, 0x00]),
        ([0x80, 0x51, 0, 0], &[], &[0x6d, 0x00]),
        ([0x80, 0x50, 0, 1], &[0], &[0x6a, 0x86]),
        ([0x80, 0x52, 1, 0], &[0, 0, 0, 0], &[0x6a, 0x86]),
        // none of these refusals changed anything
        (BALANCE, &[], &[0, 0x0f, 0x42, 0x40, 0x90, 0x00]),
        (DEBIT, &[0, 0x0f, 0x42, 0x3f], &[0, 0, 0, 1, 0x90, 0x00]),
    ];
    let mut purse = Purse::new();
    for (header, body, expected) in turns {
        replies(&rt, &mut purse, header, body, expected);
    }
}

// 40 credits, more than the purse has places.
#[test]
fn credits(rt: HostRuntime) {
    let mut purse = Purse::new();
    for k in 1..=40 {
        replies(
            &rt,
            &mut purse,
            CREDIT,
            &[0, 0, 0, 1],
            &[0, 0, 0, k, 0x90, 0x00],
        );
    }
    purse.reset();
    replies(&rt, &mut purse, BALANCE, &[], &[0, 0, 0, 40, 0x90, 0x00]);
}

// 40 credits of 3 and debits of 2 in turn.
#[test]
fn credits_and_debits(rt: HostRuntime) {
    let mut purse = Purse::new();
    for k in 1..=40 {
        replies(
            &rt,
            &mut purse,
            CREDIT,
            &[0, 0, 0, 3],
            &[0, 0, 0, k + 2, 0x90, 0x00],
        );
        replies(
            &rt,
            &mut purse,
            DEBIT,
            &[0, 0, 0, 2],
            &[0, 0, 0, k, 0x90, 0x00],
        );
    }
    assert_eq!(rt; purse.balance(), 40);
}
