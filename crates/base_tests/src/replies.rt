//! The text of a reply.
use wire_commands::{Reason, Reply, write_number};

#[test]
fn a_number_follows_its_word(rt: HostRuntime) {
    let mut into = [b'-'; 80];
    let length = write_number(b"bad limit ", 10, &mut into);
    assert!(rt; length < into.len());
    assert_eq!(rt; &into[..length], b"bad limit 10\n".as_slice());
    assert_eq!(rt; into[length], b'-');
}

#[test]
fn a_reply_is_one_line_of_text(rt: HostRuntime) {
    let rows: [(Reply, &[u8]); 15] = [
        (Reply::Value(0), b"value 0\n"),
        (Reply::Value(u64::MAX), b"value 18446744073709551615\n"),
        (Reply::NoValue, b"none\n"),
        (Reply::New, b"new\n"),
        (Reply::Old(907), b"old 907\n"),
        (Reply::Old(u64::MAX), b"old 18446744073709551615\n"),
        (Reply::Full, b"full\n"),
        (Reply::Worn, b"worn\n"),
        (Reply::Bye, b"bye\n"),
        (Reply::Bad(Reason::Long), b"bad long\n"),
        (Reply::Bad(Reason::Empty), b"bad empty\n"),
        (Reply::Bad(Reason::Word), b"bad word\n"),
        (Reply::Bad(Reason::Count), b"bad count\n"),
        (Reply::Bad(Reason::Number), b"bad number\n"),
        (Reply::Bad(Reason::Range), b"bad range\n"),
    ];
    for (reply, line) in rows {
        let mut into = [b'-'; 80];
        let length = reply.write(&mut into);
        assert!(rt; length < into.len(), "{reply:?}");
        assert_eq!(rt; &into[..length], line);
        assert_eq!(rt; into[length], b'-', "past {reply:?}");
    }
}
