ghost use Rattle.std.specs.Prelude.{◌<◌};

use cb_io::{
    Failed, FileStop, Files, HostFiles, HostSink, Line, LineReader, MemFiles, MemSink, NeverFiles,
    NeverSink, ReadStop, Sink, read_whole, write_all,
};
use std::alloc::Global;
use std::str::from_utf8;
use std::test::Fail;

// Files with "abcde" under `a` and nothing under `b`, which give at most a piece at once and fail at one call, if not 0.
fn sample(alloc: Global, piece: usize, failing: u64) -> Result<MemFiles, Fail>
    requires { 0 < piece }
{
    let mut files = MemFiles::new(alloc);
    files.add("a", b"abc")?;
    files.add("b", b"")?;
    files.add("a", b"de")?;
    files.piece(piece);
    if failing > 0 {
        files.fail_at(failing)?;
    }
    Ok(files)
}

#[test]
fn files_are_read_whole_in_any_pieces(rt: HostRuntime) -> Result<(), Fail> {
    let alloc = rt.alloc();
    // The piece, the call that fails, the name and the most that is allowed; and the answer, with the bytes that are
    // left of `a`.
    let cases: [(usize, u64, &str, usize, &str, usize); 10] = [
        (1, 0, "a", 5, "abcde", 0),
        (7, 0, "a", 5, "abcde", 0),
        (1, 0, "a", 4, "too much", 0),
        (7, 0, "a", 4, "too much", 0),
        (1, 0, "a", 1, "too much", 3),
        (1, 3, "a", 5, "read fault", 3),
        (7, 1, "a", 5, "read fault", 5),
        (7, 2, "a", 5, "read fault", 0),
        (7, 0, "b", 0, "", 5),
        (7, 0, "c", 5, "read fault", 5),
    ];
    for (piece, failing, name, most, answer, left) in cases {
        assert!(rt; piece > 0);
        let mut files = sample(alloc, piece, failing)?;
        let reported = match read_whole(alloc, &mut files, name, most) {
            Ok(all) => String::from_utf8(all).unwrap_or(String::new(alloc)),
            Err(stop) => format!(in alloc; "{stop}")?,
        };
        assert_eq!(rt; reported.as_str(), answer, "{name} by {piece}");
        let mut rest = [0; 9];
        files.piece(9);
        assert_eq!(rt; files.read("a", &mut rest), Ok(left), "{name} by {piece}");
    }
    Ok(())
}

#[test]
fn a_sink_takes_a_prefix_before_a_fault(rt: HostRuntime) -> Result<(), Fail> {
    let alloc = rt.alloc();
    // The capacity, the piece, the call that fails, if not 0, and what is taken of "abcde".
    let cases: [(usize, usize, u64, &[u8]); 7] = [
        (5, 1, 0, b"abcde"),
        (9, 7, 0, b"abcde"),
        (4, 1, 0, b"abcd"),
        (4, 7, 0, b"abcd"),
        (0, 7, 0, b""),
        (9, 2, 2, b"ab"),
        (9, 7, 1, b""),
    ];
    for (capacity, piece, failing, taken) in cases {
        assert!(rt; piece > 0);
        let mut sink = MemSink::new(alloc, capacity)?;
        sink.piece(piece);
        if failing > 0 {
            sink.fail_at(failing)?;
        }
        let all = write_all(&mut sink, b"abcde").is_ok();
        assert_eq!(rt; sink.bytes(), taken, "{capacity} by {piece}");
        assert_eq!(rt; all, taken.len() == 5, "{capacity} by {piece}");
    }
    Ok(())
}

#[test]
fn a_host_sink_passes_on_what_it_takes(rt: HostRuntime) -> Result<(), Fail> {
    let alloc = rt.alloc();
    let mut bytes = Vec::new(alloc);
    let mut sink = HostSink::new(&mut bytes);
    assert!(rt; write_all(&mut sink, b"abc").is_ok());
    drop(sink);
    assert_eq!(rt; bytes.as_slice(), b"abc".as_slice());
    Ok(())
}

#[test]
fn host_files_go_on_where_they_were_left(rt: HostRuntime) -> Result<(), Fail> {
    let alloc = rt.alloc();
    std::fs::write(&rt, "here", "text").is_ok();
    let mut files = HostFiles::new(alloc, &rt);
    let mut two = [0; 2];
    assert_eq!(rt; files.read("here", &mut two), Ok(2));
    let Ok(rest) = read_whole(alloc, &mut files, "here", 2) else {
        return Err(Fail::new("the rest of the file"));
    };
    assert_eq!(rt; rest.as_slice(), b"xt".as_slice());
    assert_eq!(rt; files.read("absent", &mut two), Err(FileStop::Failed));
    Ok(())
}

#[test]
fn what_never_fails_gives_all_and_takes_all(rt: HostRuntime) -> Result<(), Fail> {
    let alloc = rt.alloc();
    let mut files = NeverFiles::new(alloc);
    files.add("a", b"abc")?;
    files.add("a", b"de")?;
    for (name, bytes) in [("a", "abcde"), ("a", ""), ("b", "")] {
        let Ok(all) = read_whole(alloc, &mut files, name, 5) else {
            return Err(Fail::new("a file that never fails"));
        };
        assert_eq!(rt; all.as_slice(), bytes.as_bytes(), "{name}");
    }
    assert!(rt; write_all(&mut NeverSink::new(), b"abcde").is_ok());
    Ok(())
}

// What a reader tells of a file, answer by answer, up to the end or a refusal; a line that is known to be the last has a dot.
fn reported_lines(
    alloc: Global,
    files: &mut MemFiles,
    name: &str,
    line_most: usize,
    total_most: u64,
) -> Result<String, Fail> {
    let mut reader = LineReader::new(alloc, name, line_most, total_most)?;
    let mut reported = String::new(alloc);
    'answers: for _ in 0..9 {
        let line = match reader.next_line(files) {
            Ok(line) => line,
            Err(stop) => {
                reported.push_str(format!(in alloc; "{stop}")?.as_str())?;
                return Ok(reported);
            }
        };
        let word = match line {
            Line::Text { number } => format!(in alloc;
                "{number}:{}",
                from_utf8(reader.text()).unwrap_or("?")
            )?,
            Line::Long { number } => format!(in alloc; "{number} long")?,
            Line::End => return Ok(reported),
        };
        reported.push_str(word.as_str())?;
        reported.push_str(if reader.has_ended() { ". " } else { ", " })?;
    }
    Ok(reported)
}

// The file and the most bytes in all, where a line has at most 3; the piece, the call that fails, if not 0, and what is reported.
const LINE_CASES: [(&str, u64, usize, u64, &str); 19] = [
    ("ab\nabcd\nx", 8, 1, 0, "1:ab, 2 long, too much"),
    ("ab\nabcd\nx", 8, 2, 0, "1:ab, 2 long, too much"),
    ("ab\nabcd\nx", 8, 8, 0, "1:ab, 2 long, too much"),
    ("ab\nabcd\n", 8, 1, 0, "1:ab, 2 long, "),
    ("ab\nabcd\n", 8, 2, 0, "1:ab, 2 long, "),
    ("ab\nabcd\n", 8, 8, 0, "1:ab, 2 long, "),
    ("abc\n", 3, 9, 0, "too much"),
    ("abc", 3, 9, 0, "1:abc. "),
    ("abc", 2, 1, 0, "too much"),
    ("abc\nabcd", 99, 5, 0, "1:abc, 2 long. "),
    ("\n\na", 99, 2, 0, "1:, 2:, 3:a. "),
    ("a\r\n", 99, 9, 0, "1:a\r, "),
    ("", 0, 9, 0, ""),
    ("abcdefghij\nk\n", 99, 2, 0, "1 long, 2:k, "),
    ("ab\ncd\n", 99, 3, 1, "read fault"),
    ("ab\ncd\n", 99, 3, 2, "1:ab, read fault"),
    ("ab\ncd\n", 99, 3, 3, "1:ab, 2:cd, read fault"),
    ("ab\ncd\n", 99, 3, 4, "1:ab, 2:cd, "),
    ("ab\ncd", 99, 1, 6, "1:ab, read fault"),
];

// What is reported of a file that is read in such pieces and fails at one call, if not 0.
fn reported_by(
    alloc: Global,
    text: &str,
    total_most: u64,
    piece: usize,
    failing: u64,
) -> Result<String, Fail>
    requires { 0 < piece }
{
    let mut files = MemFiles::new(alloc);
    files.add("a", text.as_bytes())?;
    files.piece(piece);
    if failing > 0 {
        files.fail_at(failing)?;
    }
    reported_lines(alloc, &mut files, "a", 3, total_most)
}

#[test]
fn lines_are_reported_in_any_pieces(rt: HostRuntime) -> Result<(), Fail> {
    let alloc = rt.alloc();
    for (text, total_most, piece, failing, answer) in LINE_CASES {
        assert!(rt; piece > 0);
        let reported = reported_by(alloc, text, total_most, piece, failing)?;
        assert_eq!(rt; reported.as_str(), answer, "{text} by {piece}, {failing}");
    }
    let reported = reported_lines(alloc, &mut MemFiles::new(alloc), "a", 3, 99)?;
    assert_eq!(rt; reported.as_str(), "read fault");
    Ok(())
}
