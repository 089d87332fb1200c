//! Numbers, bytes and lines as text.

use plain_text::{
    cut_line, first_line, hex_size, is_hex_word, read_hex, read_number, write_hex, write_number,
    write_number_word, write_text, write_word,
};

/// Words, and the number from 1 to 99 that they say.
const NUMBERS: &[(&[u8], Option<u64>)] = &[
    (b"1", Some(1)),
    (b"99", Some(99)),
    (b"0", None),
    (b"100", None),
    (b"07", None),
    (b"+7", None),
    (b"", None),
    (b"7 ", None),
    (b"\xff", None),
];

#[test]
fn a_number_has_one_word(rt: HostRuntime) {
    for (word, number) in NUMBERS {
        assert!(rt; read_number(word, 1, 99) == *number, "{word:?}");
    }
    assert!(rt; read_number(b"18446744073709551615", 0, u64::MAX) == Some(u64::MAX));
    assert!(rt; read_number(b"18446744073709551616", 0, u64::MAX).is_none());
}

/// Words, and whether they say bytes, where `-` says none.
const BYTES: &[(&[u8], bool)] = &[
    (b"0aff", true),
    (b"-", true),
    (b".", false),
    (b"0AFF", false),
    (b"0af", false),
    (b"", false),
    (b"0g", false),
];

#[test]
fn bytes_have_one_word(rt: HostRuntime) {
    for (word, is_word) in BYTES {
        assert!(rt; is_hex_word(word, b'-') == *is_word, "{word:?}");
    }
}

#[test]
fn a_word_of_bytes_is_read(rt: HostRuntime) {
    assert!(rt; is_hex_word(b"0aff", b'.') && is_hex_word(b".", b'.'));
    assert!(rt; hex_size(b"0aff", b'.') == 2);
    let bytes = read_hex(rt.alloc(), b"0aff", b'.').expect(&rt, "there is memory");
    let are_two = bytes.as_slice() == [10, 255].as_slice();
    drop(bytes);
    let none = read_hex(rt.alloc(), b".", b'.').expect(&rt, "there is memory");
    let are_none = none.is_empty();
    drop(none);
    assert!(rt; are_two && are_none);
}

#[test]
fn words_are_appended(rt: HostRuntime) {
    let mut out = Vec::new(rt.alloc());
    write_text(&mut out, "made").expect(&rt, "there is memory");
    write_word(&mut out, "of").expect(&rt, "there is memory");
    write_number_word(&mut out, 16_777_216).expect(&rt, "there is memory");
    write_number(&mut out, 0).expect(&rt, "there is memory");
    write_hex(&mut out, &[10, 255], b'-').expect(&rt, "there is memory");
    write_hex(&mut out, &[], b'-').expect(&rt, "there is memory");
    let is_written = out.as_slice() == b"made of 1677721600aff-".as_slice();
    drop(out);
    assert!(rt; is_written);
}

/// Texts, and the line and the rest that each is cut into, where it has a line feed.
const CUT: &[(&[u8], Option<(&[u8], &[u8])>)] = &[
    (b"ab\ncd\n", Some((b"ab", b"cd\n"))),
    (b"\n", Some((b"", b""))),
    (b"ab\r", None),
    (b"", None),
];

// Whether the text is cut so.
fn is_cut_so(text: &[u8], cut: Option<(&[u8], &[u8])>) -> bool {
    match (cut_line(text), cut) {
        (Some((first, after)), Some((line, rest))) => first == line && after == rest,
        (None, None) => true,
        _ => false,
    }
}

#[test]
fn a_line_ends_at_its_line_feed(rt: HostRuntime) {
    for (text, cut) in CUT {
        assert!(rt; is_cut_so(text, *cut));
    }
    assert!(rt; first_line(b"ab") == (b"ab".as_slice(), b"".as_slice()));
    assert!(rt; first_line(b"\nab") == (b"".as_slice(), b"ab".as_slice()));
}
