use cb_text::{
    LineAt, decimal_of, has_no_word, is_instance, is_name, is_passed_over, line_from, node_parts,
    words,
};

const LONG: &[u8] = b"a234567890123456789012345678901234567890123456789012345678901234";

#[test]
fn names(rt: HostRuntime) {
    let table: [(&[u8], bool, bool); 14] = [
        (b"", false, false),
        (b"a", true, true),
        (b"Z-_9", true, true),
        (b"9", false, true),
        (b"-a", false, true),
        (b"_", false, true),
        (b"10.0.0.1:80/x", false, true),
        (b"a.b", false, true),
        (b"class", false, true),
        (b"hide", false, true),
        (b"Class", true, true),
        (b"a@b", false, false),
        (b"a b", false, false),
        (b"\xc3\xa9", false, false),
    ];
    for (bytes, name, instance) in table {
        assert_eq!(rt; is_name(bytes), name, "{bytes:?}");
        assert_eq!(rt; is_instance(bytes), instance, "{bytes:?}");
    }
    assert!(rt; is_name(&LONG[..63]) && is_instance(&LONG[..63]));
    assert!(rt; !is_name(LONG) && !is_instance(LONG));
}

#[test]
fn nodes(rt: HostRuntime) {
    let table: [(&[u8], Option<(&[u8], &[u8])>); 7] = [
        (b"Down@link-1", Some((b"Down", b"link-1"))),
        (b"E@class", Some((b"E", b"class"))),
        (b"Down", None),
        (b"@link", None),
        (b"Down@", None),
        (b"Down@a@b", None),
        (b"event@a", None),
    ];
    for (bytes, parts) in table {
        assert_eq!(rt; node_parts(bytes), parts, "{bytes:?}");
    }
}

#[test]
fn lines_of_words(rt: HostRuntime) {
    let table: [(&[u8], usize, &[u8], bool); 9] = [
        (b"", 0, b"", true),
        (b" \t\r", 0, b"", true),
        (b"create a Port\r", 3, b"create", false),
        (b"\tlink  a\tr b ", 4, b"link", false),
        (b"# x", 2, b"#", true),
        (b"  #x", 1, b"#x", true),
        (b"x #", 2, b"x", false),
        (b"\x0b \x00", 2, b"\x0b", false),
        (b"a\nb c", 2, b"a\nb", false),
    ];
    for (line, count, first, passed) in table {
        assert_eq!(rt; words(line).count(), count, "{line:?}");
        assert_eq!(rt; words(line).next().unwrap_or(b""), first, "{line:?}");
        assert_eq!(rt; has_no_word(line), count == 0, "{line:?}");
        assert_eq!(rt; is_passed_over(line), passed, "{line:?}");
    }
}

#[test]
fn lines_from_place_to_place(rt: HostRuntime) {
    let text = b"a\r\n\n#b\nc";
    let table = [(0, 2, 3), (3, 3, 4), (4, 6, 7), (7, 8, 8)];
    let mut from = 0;
    for (start, end, next) in table {
        assert!(rt; from <= text.len());
        let line = line_from(text, from);
        assert_eq!(rt; line, Some(LineAt { start, end, next }));
        from = next;
    }
    assert_eq!(rt; line_from(text, 8), None);
    assert_eq!(rt; line_from(b"\n", 1), None);
    assert_eq!(rt; line_from(b"", 0), None);
}

#[test]
fn decimals(rt: HostRuntime) {
    let table: [(&[u8], Option<u64>); 12] = [
        (b"0", Some(0)),
        (b"9999", Some(9999)),
        (b"1000000000000", Some(1_000_000_000_000)),
        (b"18446744073709551615", Some(u64::MAX)),
        (b"18446744073709551616", None),
        (b"", None),
        (b"00", None),
        (b"01", None),
        (b"+1", None),
        (b"-0", None),
        (b"1 ", None),
        (b"\xc3\xa9", None),
    ];
    for (bytes, number) in table {
        assert_eq!(rt; decimal_of(bytes), number, "{bytes:?}");
    }
}
