use crate::files::{Entry, Files};
use apdu::{Application, Header};
use std::process::Abort;
use std::test::Fail;

// A command, CLA INS P1 P2 and data, with the answer and the status that it is to have.
#[derive(Clone, Copy)]
struct Case<'a> {
    header: [u8; 4],
    body: &'a [u8],
    answer: &'a [u8],
    status: [u8; 2],
}

fn expect<'a>(header: [u8; 4], body: &'a [u8], answer: &'a [u8], status: [u8; 2]) -> Case<'a> {
    Case {
        header,
        body,
        answer,
        status,
    }
}

fn entry(id: u16, start: usize, length: usize) -> Entry {
    Entry { id, start, length }
}

// Runs the commands in their order, each on a buffer whose other bytes are to stay.
fn run_cases(rt: &impl Abort, files: &mut Files, cases: &[Case]) {
    for case in cases {
        let header = Header::from(case.header);
        let mut buffer = [0xee; 256];
        let (count, status) = files.run(header, case.body, &mut buffer);
        assert_eq!(rt; [status.sw1(), status.sw2()], case.status);
        assert!(rt; count == case.answer.len() && count <= 256);
        assert_eq!(rt; &buffer[0..count], case.answer);
        for byte in &buffer[count..256] {
            assert_eq!(rt; *byte, 0xee);
        }
    }
}

#[test]
fn commands_on_a_small_file(rt: HostRuntime) -> Result<(), Fail> {
    let Ok(mut files) = Files::new(&[entry(0x2f01, 0, 2)], &[0x41, 0x42]) else {
        return Err(Fail::new("the table is within its limits"));
    };
    let described = [0x6f, 0x08, 0x80, 0x02, 0x00, 0x02, 0x83, 0x02, 0x2f, 0x01];
    let cases = [
        expect([0x00, 0xb0, 0x00, 0x00], &[], &[], [0x69, 0x86]),
        expect([0x00, 0xd6, 0x00, 0x00], &[0x43], &[], [0x69, 0x86]),
        expect([0x00, 0xa4, 0x00, 0x00], &[0x3f, 0x00], &[], [0x6a, 0x82]),
        expect(
            [0x00, 0xa4, 0x00, 0x00],
            &[0x2f, 0x01],
            &described,
            [0x90, 0x00],
        ),
        expect([0x00, 0xa4, 0x00, 0x00], &[0x3f, 0x00], &[], [0x6a, 0x82]),
        expect([0x00, 0xb0, 0x00, 0x00], &[], &[0x41, 0x42], [0x90, 0x00]),
        expect([0x00, 0xb0, 0x00, 0x01], &[], &[0x42], [0x90, 0x00]),
        expect([0x00, 0xb0, 0x00, 0x02], &[], &[], [0x6b, 0x00]),
        expect([0x00, 0xb0, 0x00, 0x00], &[0x00], &[], [0x67, 0x00]),
        expect([0x80, 0xb0, 0x00, 0x00], &[], &[], [0x6e, 0x00]),
        expect([0x00, 0x20, 0x00, 0x00], &[], &[], [0x6d, 0x00]),
        expect([0x00, 0xb0, 0x80, 0x00], &[], &[], [0x6a, 0x86]),
        expect([0x00, 0xd6, 0x80, 0x00], &[0x43], &[], [0x6a, 0x86]),
        expect([0x00, 0xa4, 0x00, 0x01], &[0x2f, 0x01], &[], [0x6a, 0x86]),
        expect([0x00, 0xa4, 0x00, 0x00], &[0x2f], &[], [0x67, 0x00]),
        expect([0x00, 0xd6, 0x00, 0x01], &[0x43], &[], [0x90, 0x00]),
        expect([0x00, 0xd6, 0x00, 0x01], &[0x44, 0x45], &[], [0x67, 0x00]),
        expect([0x00, 0xd6, 0x00, 0x00], &[], &[], [0x67, 0x00]),
        expect([0x00, 0xd6, 0x00, 0x02], &[0x44], &[], [0x6b, 0x00]),
        expect([0x00, 0xb0, 0x00, 0x00], &[], &[0x41, 0x43], [0x90, 0x00]),
    ];
    run_cases(&rt, &mut files, &cases);
    Ok(())
}

#[test]
fn no_current_file_after_reset(rt: HostRuntime) -> Result<(), Fail> {
    let Ok(mut files) = Files::new(&[entry(0x2f01, 0, 2)], &[0x41, 0x42]) else {
        return Err(Fail::new("the table is within its limits"));
    };
    let mut buffer = [0; 256];
    let (_, selected) = files.run(
        Header::from([0x00, 0xa4, 0x00, 0x00]),
        &[0x2f, 0x01],
        &mut buffer,
    );
    assert_eq!(rt; [selected.sw1(), selected.sw2()], [0x90, 0x00]);
    files.reset();
    let (count, read) = files.run(Header::from([0x00, 0xb0, 0x00, 0x00]), &[], &mut buffer);
    assert_eq!(rt; count, 0);
    assert_eq!(rt; [read.sw1(), read.sw2()], [0x69, 0x86]);
    Ok(())
}

#[test]
fn commands_on_the_longest_file(rt: HostRuntime) -> Result<(), Fail> {
    let table = [entry(0x2f01, 256, 1), entry(0x2f02, 0, 256)];
    let Ok(mut files) = Files::new(&table, &[0x55; 257]) else {
        return Err(Fail::new("the table is within its limits"));
    };
    let described = [0x6f, 0x08, 0x80, 0x02, 0x01, 0x00, 0x83, 0x02, 0x2f, 0x02];
    let cases = [
        expect(
            [0x00, 0xa4, 0x00, 0x00],
            &[0x2f, 0x02],
            &described,
            [0x90, 0x00],
        ),
        expect([0x00, 0xb0, 0x00, 0x00], &[], &[0x55; 256], [0x90, 0x00]),
        expect([0x00, 0xd6, 0x00, 0xff], &[0x41], &[], [0x90, 0x00]),
        expect([0x00, 0xd6, 0x00, 0xff], &[0x42, 0x43], &[], [0x67, 0x00]),
        expect([0x00, 0xd6, 0x01, 0x00], &[0x41], &[], [0x6b, 0x00]),
        expect([0x00, 0xb0, 0x00, 0xfe], &[], &[0x55, 0x41], [0x90, 0x00]),
        expect([0x00, 0xb0, 0x01, 0x00], &[], &[], [0x6b, 0x00]),
    ];
    run_cases(&rt, &mut files, &cases);
    Ok(())
}

#[test]
fn count_of_the_files(rt: HostRuntime) -> Result<(), Fail> {
    let table = [entry(0x2f01, 0, 1), entry(0x2f02, 0, 2)];
    let Ok(files) = Files::new(&table, &[0x41, 0x42]) else {
        return Err(Fail::new("the table is within its limits"));
    };
    assert_eq!(rt; files.count(), 2);
    Ok(())
}

fn is_refused(table: &[Entry], contents: &[u8]) -> bool {
    match Files::new(table, contents) {
        Ok(_) => false,
        Err(_) => true,
    }
}

#[test]
fn tables_outside_their_limits(rt: HostRuntime) {
    let contents = [0; 300];
    let nine = [
        entry(0, 0, 1),
        entry(1, 0, 1),
        entry(2, 0, 1),
        entry(3, 0, 1),
        entry(4, 0, 1),
        entry(5, 0, 1),
        entry(6, 0, 1),
        entry(7, 299, 1),
        entry(8, 0, 1),
    ];
    assert_eq!(rt; is_refused(&[], &contents), true);
    assert_eq!(rt; is_refused(&nine, &contents), true);
    assert_eq!(rt; is_refused(&nine[0..8], &contents), false);
    assert_eq!(rt;
        is_refused(&[entry(1, 0, 1), entry(2, 0, 1), entry(1, 1, 1)], &contents),
        true
    );
    assert_eq!(rt; is_refused(&[entry(1, 0, 0)], &contents), true);
    assert_eq!(rt; is_refused(&[entry(1, 0, 256)], &contents), false);
    assert_eq!(rt; is_refused(&[entry(1, 0, 257)], &contents), true);
    assert_eq!(rt; is_refused(&[entry(1, 299, 1)], &contents), false);
    assert_eq!(rt; is_refused(&[entry(1, 299, 2)], &contents), true);
    assert_eq!(rt; is_refused(&[entry(1, usize::MAX, 1)], &contents), true);
    assert_eq!(rt; is_refused(&[entry(1, 0, 2)], &[0x41]), true);
}
