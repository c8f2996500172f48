use crate::line::{Line, print_line, read_line};
use crate::reader::{self, Reader};
use crate::trace::{Outcome, TurnLabel, bad_line, character_line, result_line, turn_line};
use apdu::{Refusal, Status};
use wire::Traced;

// How many lines are read, and the number of the bad line, if there is one.
#[derive(Clone, Copy)]
struct Told {
    good: u64,
    bad: Option<u64>,
}

fn note_step(told: &mut Told, step: Result<Option<Line>, reader::Refusal>) {
    match step {
        Ok(None) => {}
        Ok(Some(_)) => told.good = told.good.saturating_add(1),
        Err(reader::Refusal::BadLine { line }) => told.bad = Some(line),
    }
}

fn feed(reader: &mut Reader, told: &mut Told, bytes: &[u8]) {
    for b in bytes {
        note_step(told, reader.push(*b));
    }
}

fn tell(script: &[u8]) -> Told {
    let mut reader = Reader::new();
    let mut told = Told { good: 0, bad: None };
    feed(&mut reader, &mut told, script);
    note_step(&mut told, reader.finish());
    told
}

#[test]
fn tells_scripts(rt: HostRuntime) {
    let cases: [(&[u8], u64, Option<u64>); 24] = [
        (b"", 0, None),
        (b"link,0,1,254,15,w", 1, None),
        (
            b"link,1,254,1,0,b\ndamage,0\ndamage,65535\nsend,0,00A40000\nreset,255\nsend,1,\n",
            6,
            None,
        ),
        (b"\n", 0, Some(1)),
        (b"send,1,00\n", 0, Some(1)),
        (b"link,2,1,1,0,w\n", 0, Some(1)),
        (b"link,0,0,1,0,w\n", 0, Some(1)),
        (b"link,0,1,255,0,w\n", 0, Some(1)),
        (b"link,0,1,1,16,w\n", 0, Some(1)),
        (b"link,0,1,1,0,W\n", 0, Some(1)),
        (b"link,0,1,1,0\n", 0, Some(1)),
        (b"link,0,1,1,0,w,\n", 0, Some(1)),
        (b"link,0,01,1,0,w\n", 0, Some(1)),
        (b"link,0,,1,0,w\n", 0, Some(1)),
        (b"link, 0,1,1,0,w\n", 0, Some(1)),
        (b"link,0,1,1,0,w\r\n", 0, Some(1)),
        (b"link,0,1,1,0,w\nlink,0,1,1,0,w\n", 1, Some(2)),
        (b"link,0,1,1,0,w\ndamage,5\ndamage,5\n", 2, Some(3)),
        (b"link,0,1,1,0,w\ndamage,65536\n", 1, Some(2)),
        (b"link,0,1,1,0,w\nreset,1\ndamage,5\nreset,1\n", 2, Some(3)),
        (b"link,0,1,1,0,w\nsend,1,0\n", 1, Some(2)),
        (b"link,0,1,1,0,w\nsend,1,0a\n", 1, Some(2)),
        (b"link,0,1,1,0,w\nsend,1\n", 1, Some(2)),
        (b"link,0,1,1,0,w\nsend,256,00\nreset,1", 1, Some(2)),
    ];
    for (script, good, bad) in cases {
        let told = tell(script);
        assert_eq!(rt; told.good, good);
        assert_eq!(rt; told.bad, bad);
    }
}

// The 65th damage line is bad, and so is a line of 610 bytes, as soon as its last byte comes; a bad script tells no more.
#[test]
fn keeps_limits(rt: HostRuntime) {
    let mut reader = Reader::new();
    let mut told = Told { good: 0, bad: None };
    feed(&mut reader, &mut told, b"link,0,1,1,0,w\n");
    for k in 10..75u8 {
        feed(&mut reader, &mut told, b"damage,");
        feed(
            &mut reader,
            &mut told,
            &[b'0' + k / 10, b'0' + k % 10, b'\n'],
        );
    }
    feed(&mut reader, &mut told, b"reset,1\n");
    assert_eq!(rt; told.good, 65);
    assert_eq!(rt; told.bad, Some(66));
    let mut longest = Reader::new();
    let mut got = Told { good: 0, bad: None };
    feed(&mut longest, &mut got, b"link,0,1,1,0,w\nsend,255,");
    for _ in 0..600u16 {
        feed(&mut longest, &mut got, b"0");
    }
    assert_eq!(rt; got.bad, None);
    feed(&mut longest, &mut got, b"0");
    assert_eq!(rt; got.good, 1);
    assert_eq!(rt; got.bad, Some(2));
}

fn is_line(out: &[u8], count: usize, line: &[u8]) -> bool {
    count == line.len() && out.starts_with(line)
}

fn prints_back(line: &[u8]) -> bool {
    let mut memory = [0u8; 300];
    let Some(read) = read_line(line, &mut memory) else {
        return false;
    };
    let length = match read {
        Line::Send { length, .. } => length as usize,
        _ => 0,
    };
    if length > 300 {
        return false;
    }
    let mut out = [0u8; 609];
    match print_line(read, &memory[0..length], &mut out) {
        Some(count) => is_line(&out, count, line),
        None => false,
    }
}

#[test]
fn prints_lines(rt: HostRuntime) {
    let lines: [&[u8]; 6] = [
        b"link,0,1,254,15,w",
        b"link,1,254,32,0,b",
        b"damage,65535",
        b"send,255,00A4040002F00D",
        b"send,1,",
        b"reset,0",
    ];
    for line in lines {
        assert!(rt; prints_back(line));
    }
}

fn is_turn(turn: u64, program: u8, outcome: Outcome, data: &[u8], line: &str) -> bool {
    match turn_line(TurnLabel { turn, program }, outcome, data) {
        Some(text) => text.as_str() == line,
        None => false,
    }
}

#[test]
fn writes_traces(rt: HostRuntime) {
    assert_eq!(rt;
        character_line(
            1,
            Traced {
                by_card: false,
                byte: 0x2f,
                damaged: true
            }
        )
        .as_str(),
        "c,1,T,2F,!\n"
    );
    assert_eq!(rt;
        character_line(
            u64::MAX,
            Traced {
                by_card: true,
                byte: 0x0a,
                damaged: false
            }
        )
        .as_str(),
        "c,18446744073709551615,C,0A,.\n"
    );
    assert!(rt; is_turn(1, 1, Outcome::Status(0x90, 0), b"", "j,1,1,9000,\n"));
    assert!(rt; is_turn(2, 0, Outcome::Reset, b"", "j,2,0,reset,\n"));
    assert!(rt; is_turn(3, 1, Outcome::Refusal(5), b"", "j,3,1,!5,\n"));
    assert!(rt;
        is_turn(
            10,
            255,
            Outcome::Status(0x6c, 0x1f),
            &[1, 0xab],
            "j,10,255,6C1F,01AB\n"
        )
    );
    let fourth = TurnLabel {
        turn: 4,
        program: 1,
    };
    assert_eq!(rt; turn_line(fourth, Outcome::Reset, &[0; 257]), None);
    let mut answer = [0; 256];
    answer[0] = 0xab;
    let done = Ok(Some((1, Status::done())));
    assert_eq!(rt;
        result_line(fourth, done, &answer).as_str(),
        "j,4,1,9000,AB\n"
    );
    assert_eq!(rt;
        result_line(fourth, Ok(None), &answer).as_str(),
        "j,4,1,reset,\n"
    );
    assert_eq!(rt;
        result_line(fourth, Err(Refusal::Lost), &answer).as_str(),
        "j,4,1,!5,\n"
    );
    assert_eq!(rt; bad_line(3).as_str(), "x,3\n");
}
