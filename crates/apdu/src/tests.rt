use crate::command::{judge, read_command};
use crate::refusal::Refusal;

// The refusal, or None where the command passes.
fn refusal(bytes: &[u8], room: usize) -> Option<Refusal> {
    judge(bytes, room).err()
}

// Ne, or None where the command is malformed.
fn ne(bytes: &[u8]) -> Option<usize> {
    read_command(bytes).map(|command| command.ne)
}

#[test]
fn four_cases_are_read(rt: HostRuntime) {
    assert_eq!(rt; ne(b"\x00\xA4\x00\x00"), Some(0));
    assert_eq!(rt; ne(b"\x00\xB0\x00\x00\x00"), Some(256));
    assert_eq!(rt; ne(b"\x00\xB0\x00\x00\xFF"), Some(255));
    assert_eq!(rt; ne(b"\x00\xA4\x00\x00\x02\x2F\x01"), Some(0));
    assert_eq!(rt; ne(b"\x00\xA4\x00\x00\x02\x2F\x01\x0A"), Some(10));
    assert_eq!(rt; ne(b"\x00\xA4\x00\x00\x02\x2F\x01\x00"), Some(256));
}

#[test]
fn all_else_is_malformed(rt: HostRuntime) {
    assert_eq!(rt; refusal(b"", 256), Some(Refusal::Malformed));
    assert_eq!(rt; refusal(b"\x00\xB0\x00", 256), Some(Refusal::Malformed));
    assert_eq!(rt;
        refusal(b"\x00\xD6\x00\x00\x00\x00", 256),
        Some(Refusal::Malformed)
    );
    assert_eq!(rt;
        refusal(b"\x00\xA4\x00\x00\x02\x2F", 256),
        Some(Refusal::Malformed)
    );
    assert_eq!(rt;
        refusal(b"\x00\xA4\x00\x00\x02\x2F\x01\x00\x00", 256),
        Some(Refusal::Malformed)
    );
}

#[test]
fn refusals_come_in_order(rt: HostRuntime) {
    assert_eq!(rt;
        refusal(b"\xFF\xB0\x00\x00\x00", 0),
        Some(Refusal::Reserved)
    );
    assert_eq!(rt;
        refusal(b"\x00\xC0\x00\x00\x00", 256),
        Some(Refusal::Reserved)
    );
    assert_eq!(rt;
        refusal(b"\x00\x60\x00\x00\x00", 256),
        Some(Refusal::Reserved)
    );
    assert_eq!(rt;
        refusal(b"\x00\x9F\x00\x00\x00", 256),
        Some(Refusal::Reserved)
    );
    assert_eq!(rt; refusal(b"\x00\xB0\x00\x00", 0), Some(Refusal::Direction));
    assert_eq!(rt;
        refusal(b"\x00\xA4\x00\x00\x00", 0),
        Some(Refusal::Direction)
    );
    assert_eq!(rt; refusal(b"\x00\xB0\x00\x00\x00", 255), Some(Refusal::Room));
    assert_eq!(rt; refusal(b"\x00\xB0\x00\x00\x00", 256), None);
    assert_eq!(rt; refusal(b"\x00\xA4\x00\x00", 0), None);
}
