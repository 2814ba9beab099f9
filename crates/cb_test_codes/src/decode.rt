ghost use Rattle.std.specs.Prelude.{◌≡◌, length, IfOk};

use cb_bits::Row;
use cb_codes::{Codes, Grouping, Groups};
use cb_coding::Book;
use cb_compact::CompactRow;
use cb_decode::{Answer, Decoder, RaisedWord, find, nearest, nearest_by};
use cb_model::{List, NodeName};
use std::alloc::{AllocError, Global};
use std::test::Fail;

// Five problems in order, of which two have no symptom and two others have the same.
const PROBLEMS: [(&str, &str, &str); 5] = [
    ("Down", "a", "110"),
    ("Hot", "a", "000"),
    ("Down", "b", "011"),
    ("Hot", "b", "110"),
    ("Down", "c", "000"),
];

#[test]
fn finds_the_nearest_groups(rt: HostRuntime) -> Result<(), Fail> {
    let alloc = rt.alloc();
    let groups = three_groups(alloc)?;
    let book = Book {
        columns: List::of(vec![in alloc; 0, 1, 2]?),
        distance: 2,
    };
    assert!(rt; groups.len() == 3 && book.columns.len() == 3);
    // Which columns are raised, how many nodes are, how many of these are no column, the distance, the groups that are so near, and whether
    // it is sure.
    let cases: [(&str, u64, u64, u32, &[bool], bool); 4] = [
        ("000", 0, 0, 0, &[true], true),
        ("010", 1, 0, 1, &[true, false, false], false),
        ("110", 4, 2, 0, &[false], true),
        ("001", 3, 2, 1, &[true, false], false),
    ];
    for (text, raised, unknown, distance, quiet, sure) in cases {
        let word = RaisedWord {
            word: code_of(alloc, 3, text)?,
            raised,
            unknown,
        };
        let finding = find(alloc, &groups, &book, &word)?;
        assert_eq!(rt; (finding.raised, finding.unknown), (raised, unknown));
        assert_eq!(rt; (finding.distance, finding.sure), (distance, sure));
        assert_eq!(rt; finding.groups.len(), quiet.len());
        for (group, is_quiet) in finding.groups.as_slice().iter().zip(quiet) {
            assert_eq!(rt; group.quiet, *is_quiet);
        }
    }
    Ok(())
}

// The groups of the five problems.
fn three_groups(alloc: Global) -> Result<Groups, AllocError> {
    let mut grouping = Grouping::of_quiet(alloc, 3)?;
    for (event, instance, code) in PROBLEMS {
        let name = NodeName::of(alloc, event.as_bytes(), instance.as_bytes())?;
        let code = code_of(alloc, 3, code)?;
        grouping.add(alloc, name, CompactRow::of(alloc, &code)?)?;
    }
    Ok(grouping.into_groups(alloc))
}

#[test]
fn decodes_words(rt: HostRuntime) -> Result<(), Fail> {
    let alloc = rt.alloc();
    let codes = four_codes(alloc)?;
    // At which distance the codes are over which columns, a word, how far which groups are, and whether that is sure. The last
    // three words share no column of the book with any code, are too short, and lie as far from the zero code as from another.
    let cases: [(u32, &[u32], &str, u32, &[u32], bool); 5] = [
        (2, &[0, 2, 3], "10000", 1, &[0, 1, 3], false),
        (3, &[0, 1, 2, 3, 4], "10100", 1, &[1], true),
        (1, &[0], "01111", 0, &[0, 2], true),
        (3, &[0, 1, 2, 3, 4], "11", 1, &[1], true),
        (2, &[1, 2, 4], "10100", 1, &[0, 1, 2], false),
    ];
    for (distance, columns, word, far, groups, sure) in cases {
        let book = Book {
            columns: List::of(Vec::from_slice(alloc, columns)?),
            distance,
        };
        assert!(rt; codes.len() == 4 && book.columns.len() <= 5);
        let code = CompactRow::of(alloc, &code_of(alloc, word.len(), word)?)?;
        let answer = nearest(alloc, &codes, &book, &code)?;
        assert!(rt; is_answer(&answer, far, groups, sure), "of {word}");
        let decoder = Decoder::of(alloc, &codes, &book.columns)?;
        let answer = nearest_by(alloc, &codes, &book, &decoder, &code)?;
        assert!(rt;
            is_answer(&answer, far, groups, sure),
            "by the decoder, of {word}"
        );
    }
    Ok(())
}

// Whether an answer has these parts.
fn is_answer(answer: &Answer, distance: u32, groups: &[u32], sure: bool) -> bool {
    answer.distance == distance && answer.groups.as_slice() == groups && answer.sure == sure
}

// Four codes of five columns.
fn four_codes(alloc: Global) -> Result<Codes, AllocError> {
    let mut codes = Codes::new(alloc, 5);
    for text in ["00000", "11100", "00111", "11011"] {
        codes.push(CompactRow::of(alloc, &code_of(alloc, 5, text)?)?)?;
    }
    codes.list_holders(alloc);
    Ok(codes)
}

// A code from its text, as wide as is given.
fn code_of(alloc: Global, width: usize, text: &str) -> Result<Row, AllocError>
    ensures { IfOk result (λ code. length code ≡ width) }
{
    let mut code = Row::zeroed(alloc, width)?;
    for k in 0..width {
        if text.as_bytes().get(k) == Some(&b'1') {
            code.set(k);
        }
    }
    Ok(code)
}
