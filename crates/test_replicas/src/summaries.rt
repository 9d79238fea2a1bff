use hex::decode as read_hex;
use std::alloc::{AllocError, Global};
use std::test::*;
use summary_codec::{SummaryError, decode, encode};
use test_cases::{expect, expect_lines, halves};

/// The bytes of what was read from a file.
fn read_and_written(alloc: Global, bytes: &[u8]) -> Result<Vec<u8>, SummaryError> {
    match decode(alloc, bytes) {
        Ok((query, parts)) => {
            let written = encode(alloc, &query, &parts);
            drop(parts);
            drop(query);
            match written {
                Ok(written) => Ok(written),
                Err(error) => Err(SummaryError::from(error)),
            }
        }
        Err(error) => Err(error),
    }
}

/// How bytes were written that were read: as they were, or as a file of the second version where they were one of the first.
fn how_written(bytes: &[u8], written: &[u8]) -> &'static str {
    if written == bytes {
        return "true";
    }
    let Some(behind) = bytes.strip_prefix(b"AGGSUM01") else {
        return "false";
    };
    let Some(others) = written.strip_prefix(b"AGGSUM02") else {
        return "false";
    };
    if behind == others {
        return "in the second";
    }
    "false"
}

/// Whether bytes are a file, and how it is written again, or why they are none.
fn told(rt: HostRuntime, bytes: &[u8]) -> Result<String, Fail> {
    match read_and_written(rt.alloc(), bytes) {
        Ok(written) => Ok(String::from_str(rt.alloc(), how_written(bytes, &written))?),
        Err(error) => Ok(format!(in rt.alloc(); "{error:?}")?),
    }
}

/// The same of bytes that words tell.
fn told_of_words(rt: HostRuntime, words: &str) -> Result<String, Fail> {
    let bytes = bytes_of(rt, words)?;
    told(rt, &bytes)
}

/// What stands in a file behind its opening: columns and a query, one origin with prefix 1, and two groups of a key, a count and a sum.
const FILE: &str = "\
0010 6320746578742c206420626967696e74
0032 53454c45435420632c20636f756e74282a292c2073756d2864292046524f4d20626174636865732047524f55502042592063
0001
0000 00000001 0000000000000002
0008 0162657267656e00
0000000000000001
0000000000000001 00000000000000000000000000000007
0006 016f736c6f00
0000000000000002
0000000000000002 00000000000000000000000000000003
00000000";

/// The pieces of files that the tables name.
const PIECES: [(&str, &str); 8] = [
    // What a file of the first version begins with, and one of the second.
    ("one", "41474753554d3031"),
    ("two", "41474753554d3032"),
    // The columns `c text, d bigint`, and the query `SELECT c, count(*), sum(d) FROM batches GROUP BY c`.
    (
        "towns",
        "00106320746578742c206420626967696e74\
        003253454c45435420632c20636f756e74282a292c2073756d2864292046524f4d20626174636865732047524f55502042592063",
    ),
    // The columns `b boolean, d bigint`, and the query `SELECT b, bool_and(b), min(d) FROM batches GROUP BY b`.
    (
        "flags",
        "0013\
        6220626f6f6c65616e2c206420626967696e74\
        0035\
        53454c45435420622c20626f6f6c5f616e642862292c206d696e2864292046524f4d20626174636865732047524f55502042592062",
    ),
    // The column `d bigint`, and the query `SELECT count(*) FROM batches`.
    (
        "total",
        "00086420626967696e74\
        001c53454c45435420636f756e74282a292046524f4d2062617463686573",
    ),
    (
        "bergen",
        "00080162657267656e00\
        0000000000000001000000000000000100000000000000000000000000000007",
    ),
    (
        "oslo",
        "0006016f736c6f00\
        0000000000000002000000000000000200000000000000000000000000000003",
    ),
    // The row `oslo,5`.
    ("row", "000f016f736c6f00018000000000000005"),
];

/// The hexadecimal digits that a word stands for.
fn digits(word: &str) -> &str {
    for (name, digits) in &PIECES {
        if *name == word {
            return digits;
        }
    }
    word
}

/// The hexadecimal digits of some words.
fn digits_of(rt: HostRuntime, words: &str) -> Result<String, Fail> {
    let mut text = String::new(rt.alloc());
    for word in words.split_whitespace() {
        text.push_str(digits(word))?;
    }
    Ok(text)
}

/// The bytes of some words.
fn bytes_of(rt: HostRuntime, words: &str) -> Result<Vec<u8>, Fail> {
    let text = digits_of(rt, words)?;
    Ok(read_hex(rt.alloc(), text.as_str())?)
}

/// A file behind an opening.
fn file(rt: HostRuntime, opening: &str) -> Result<Vec<u8>, Fail> {
    let words = format!(in rt.alloc(); "{opening} {FILE}")?;
    bytes_of(rt, words.as_str())
}

#[test]
fn a_file_is_read_and_written(rt: HostRuntime) -> Result<(), Fail> {
    let mut bytes = file(rt, "two")?;
    assert!(rt; bytes.len() == 180);
    expect(told(rt, &bytes), "true")?;
    bytes.push(0)?;
    expect(told(rt, &bytes), "Trailing")
}

/// Appends an early batch of so many rows of a number.
fn push_batch(bytes: &mut Vec<u8>, number: u32, rows: u32) -> Result<(), AllocError> {
    bytes.extend_from_slice(&number.to_be_bytes())?;
    bytes.extend_from_slice(&rows.to_be_bytes())?;
    for row in 0..rows {
        bytes.extend_from_slice(&[0, 9, 1, 128, 0, 0, 0])?;
        bytes.extend_from_slice(&row.to_be_bytes())?;
    }
    Ok(())
}

/// A file of 200 early batches, of which each fourth is large.
fn early_file(rt: HostRuntime) -> Result<Vec<u8>, Fail> {
    let mut bytes = bytes_of(rt, "two total 0001 0000 00000000 0000000000000000 000000c8")?;
    for at in 0..50u32 {
        for (place, rows) in [0, 1, 14, 80].iter().enumerate() {
            push_batch(&mut bytes, 2 + 12 * at + place as u32, *rows)?;
        }
    }
    Ok(bytes)
}

#[test]
fn many_early_batches_are_read_and_written(rt: HostRuntime) -> Result<(), Fail> {
    let bytes = early_file(rt)?;
    expect(told(rt, &bytes), "true")
}

/// How long the first front of the file behind an opening is that is not told to be cut short, if there is one.
fn first_front(rt: HostRuntime, opening: &str) -> Result<Option<usize>, Fail> {
    let bytes = file(rt, opening)?;
    for end in 0..bytes.len() {
        if told(rt, &bytes[..end])?.as_str() != "Truncated" {
            return Ok(Some(end));
        }
    }
    Ok(None)
}

#[test]
fn no_front_of_a_file_is_one(rt: HostRuntime) -> Result<(), Fail> {
    assert_eq!(rt; first_front(rt, "two")?, None);
    Ok(())
}

#[test]
fn no_front_of_a_file_of_the_first_version_is_one(rt: HostRuntime) -> Result<(), Fail> {
    assert_eq!(rt; first_front(rt, "one")?, None);
    Ok(())
}

#[test]
fn a_file_of_the_first_version_is_written_in_the_second(rt: HostRuntime) -> Result<(), Fail> {
    let bytes = file(rt, "one")?;
    expect(told(rt, &bytes), "in the second")?;
    let bytes = file(rt, "41474753554d3033")?;
    expect(told(rt, &bytes), "NotASummary")
}

#[test]
fn each_byte_counts(rt: HostRuntime) -> Result<(), Fail> {
    let mut bytes = file(rt, "two")?;
    for place in 0..bytes.len() {
        let was = bytes[place];
        for byte in [was ^ 1, was ^ 128, was ^ 32, 0, 1, 127, 255] {
            bytes[place] = byte;
            // What is read is written as it was: a file has one spelling.
            assert!(rt; told(rt, &bytes)?.as_str() != "false", "{place} {byte}");
        }
        bytes[place] = was;
    }
    Ok(())
}

/// Files, and others that have a fault.
const FILES: &str = "\
two towns 0000 => true
two towns 0001 0000 00000001 0000000000000002 bergen oslo 00000000 => true
two towns 0001 03ff ffffffff 0000000000000001 oslo 00000000 => true
two towns 0001 0000 00000000 0000000000000000 00000001 00000002 00000001 row => true
two towns 0001 0000 00000000 0000000000000000 00000002 00000002 00000002 row row ffffffff 00000000 => true
two towns 0001 0000 00000001 0000000000000000 00000001 00000003 00000001 0002 0202 => true
two towns 0002 0000 00000001 0000000000000000 00000000 03ff 00000002 0000000000000001 oslo 00000001 00000005 00000001 row => true
two towns 0001 0000 00000001 0000000000000001 0001 02 0000000000000001 0000000000000000 00000000000000000000000000000000 00000000 => true
two flags 0001 0000 00000001 0000000000000003 \
0002 0100 01 01 8000000000000000 0002 0101 02 01 7fffffffffffffff 0001 02 00 00 0000000000000000 \
00000001 00000009 00000002 000b 0101 018000000000000005 0002 0202 => true
two total 0001 0000 00000001 0000000000000001 0000 0000000000100000 00000000 => true
two total 0001 0000 ffffffff 0000000000000001 0000 000ffffffff00000 00000000 => true
 => Truncated
41474753554d30 => Truncated
two => Truncated
42 => NotASummary
41474753554e => NotASummary
42474753554d3031 => NotASummary
42474753554d3032 => NotASummary
41474753554d3030 => NotASummary
41474753554d3033 => NotASummary
41474753554d303300 => NotASummary
two 00 => Truncated
two 0001 => Truncated
two 0000 => BadSchema
two ffff => Truncated
two 0008 6420626967696e74 0000 => Query(Syntax { at: 0 })
two 0008 6420626967696e74 ffff => Truncated
two towns 0401 => OutOfRange
two towns 0400 => Truncated
two towns 0001 0400 => OutOfRange
two towns 0001 03ff => Truncated
two towns 0001 0000 ffffffff => Truncated
two towns 0001 0000 00000001 0000000000100001 => OutOfRange
two towns 0001 0000 00000001 0000000000100000 => Truncated
two towns 0001 0000 00000000 0000000000000001 => OutOfRange
two towns 0001 0000 ffffffff 000ffffffff00001 => OutOfRange
two towns 0001 0000 ffffffff 000ffffffff00000 => Truncated
two towns 0001 0000 ffffffff 000ffffffff00000 bergen oslo => Truncated
two towns 0001 0000 00000001 0000000000000001 ffff 016f736c6f00 => Truncated
two towns 0001 0000 00000001 0000000000000002 bergen 0006 016f736c6f00 4000000000000000 => Truncated
two towns 0001 0000 00000001 0000000000000002 bergen 0006 016f736c6f00 4000000000000000 \
0000000000000002 00000000000000000000000000000003 => BadState
two towns 0001 0000 00000001 0000000000000001 0007 016f736c6f => Truncated
two towns 0001 0000 00000001 0000000000000001 0002 0301 => BadPacked
two towns 0001 0000 00000001 0000000000000001 0003 01ff00 => BadPacked
two towns 0001 0000 00000001 0000000000000001 0004 015c4e00 => BadPacked
two towns 0001 0000 00000001 0000000000000001 0005 016f736c6f => BadPacked
two towns 0001 0000 00000001 0000000000000001 0007 016f736c6f0000 => BadPacked
two towns 0001 0000 00000001 0000000000000001 0002 0202 => BadPacked
two towns 0001 0000 00000001 0000000000000001 0000 => BadPacked
two towns 0001 0000 00000001 0000000000000002 oslo 0006 016f736c6f00 => NotCanonical
two towns 0001 0000 00000001 0000000000000002 oslo 0008 0162657267656e00 => NotCanonical
two towns 0001 0000 00000001 0000000000000002 oslo bergen 00000000 => NotCanonical
two towns 0001 0000 00000001 0000000000000002 oslo 0001 03 => BadPacked
two towns 0001 0000 00000001 0000000000000001 0006 016f736c6f00 0000000000100001 00 => Truncated
two towns 0001 0000 00000001 0000000000000001 0006 016f736c6f00 \
0000000000100001 0000000000000002 00000000000000000000000000000003 00000000 => BadState
two towns 0001 0000 00000001 0000000000000001 0006 016f736c6f00 \
0000000000000002 0000000000100001 00000000000000000000000000000003 00000000 => BadState
two towns 0001 0000 00000001 0000000000000001 0006 016f736c6f00 \
0000000000000002 0000000000000001 00000000000000008000000000000000 00000000 => BadState
two towns 0001 0000 00000001 0000000000000001 0006 016f736c6f00 \
0000000000000002 0000000000000000 00000000000000000000000000000003 00000000 => BadState
two flags 0001 0000 00000001 0000000000000001 0001 02 03 00 0000000000000000 => BadState
two flags 0001 0000 00000001 0000000000000001 0001 02 00 00 0000000000000001 => BadState
two flags 0001 0000 00000001 0000000000000001 0001 02 00 02 0000000000000000 => BadState
two flags 0001 0000 00000001 0000000000000001 0002 0102 => BadPacked
two flags 0001 0000 00000001 0000000000000002 0001 02 00 00 0000000000000000 0002 0101 => NotCanonical
two total 0001 0000 00000001 0000000000000001 0000 0000000000100001 => BadState
two total 0001 0000 ffffffff 0000000000000001 0000 000ffffffff00001 => BadState
two total 0001 0000 ffffffff 0000000000000001 0000 4000000000000000 => BadState
two total 0001 0000 7fffffff 0000000000000002 0000 0000000000000001 0000 => NotCanonical
two total 0001 0000 7fffffff 0000000000000001 0001 02 => BadPacked
two towns 0001 0000 00000000 0000000000000000 00000000 => NotCanonical
two towns 0001 0000 00000000 0000000000000000 00000001 00000000 => NotCanonical
two towns 0001 0000 00000000 0000000000000000 00000001 00000001 => NotCanonical
two towns 0001 0000 00000001 0000000000000000 00000001 00000001 => NotCanonical
two towns 0001 0000 00000001 0000000000000000 00000001 00000002 => NotCanonical
two towns 0001 0000 7fffffff 0000000000000000 00000001 80000000 => NotCanonical
two towns 0001 0000 7fffffff 0000000000000000 00000001 80000001 00000000 => true
two towns 0001 0000 fffffffe 0000000000000000 00000001 ffffffff => NotCanonical
two towns 0001 0000 ffffffff 0000000000000000 00000001 ffffffff => NotCanonical
two towns 0001 0000 ffffffff 0000000000000000 00000001 00000000 => NotCanonical
two towns 0001 0000 00000001 0000000000000000 00000002 00000004 00000000 00000004 => NotCanonical
two towns 0001 0000 00000001 0000000000000000 00000002 00000004 00000000 00000003 => NotCanonical
two towns 0001 0000 00000001 0000000000000000 00000001 00000003 00100001 => OutOfRange
two towns 0001 0000 00000001 0000000000000000 00000001 00000003 00100000 => Truncated
two towns 0001 0000 00000001 0000000000000000 00000001 00000003 00000001 0010 => Truncated
two towns 0001 0000 00000001 0000000000000000 00000001 00000003 00000001 0006 016f736c6f00 => BadPacked
two towns 0001 0000 00000001 0000000000000000 00000001 00000003 00000001 0003 020200 => BadPacked
two towns 0001 0000 00000001 0000000000000000 00000001 00000003 00000001 0002 0102 => BadPacked
two towns 0001 0000 00000001 0000000000000000 80000000 => Truncated
two towns 0001 0000 00000001 0000000000000000 80000000 00000003 00100000 row => Truncated
two towns 0001 0000 00000001 0000000000000000 ffffffff 00000003 00000000 => Truncated
two towns 0001 0000 00000001 0000000000000000 00000001 00000003 00000001 0000 => BadPacked
two towns 0001 0000 00000001 0000000000000000 00000001 00000003 00000001 ffff 01 => Truncated
two towns 0002 0000 00000001 0000000000000000 00000000 0000 => NotCanonical
two towns 0002 0001 00000001 0000000000000000 00000000 0000 => NotCanonical
two towns 0002 0001 00000001 0000000000000000 00000000 0400 => OutOfRange
two towns 0002 0001 00000001 0000000000000000 00000000 => Truncated
two towns 0000 00 => Trailing
two towns 0001 0000 00000001 0000000000000000 00000000 00 => Trailing
two towns 0001 0000 00000001 0000000000000000 00000001 00000003 00000001 row 0000 => Trailing
two towns 0401 00 => OutOfRange
two towns 0001 0000 00000000 0000000000000000 00000000 00 => NotCanonical
two total 0001 0000 00000001 0000000000000001 0000 0000000000100001 00000000 00 => BadState
two 0001 ff => NotCanonical
two 0006 632074657874 0001 ff => NotCanonical";

#[test]
fn files_are_read_to_their_first_fault(rt: HostRuntime) -> Result<(), Fail> {
    expect_lines(rt, FILES, told_of_words)
}

/// Files of the first version: those that are read are written in the second. Each bound is tried from both sides.
const FIRST: &str = "\
one towns 0000 => in the second
one towns 0001 0000 00000001 0000000000000002 bergen oslo 00000000 => in the second
one towns 0001 03ff 7fffffff 0000000000000001 oslo 00000000 => in the second
one towns 0001 0000 00000000 0000000000000000 00000002 00000002 00000002 row row 7fffffff 00000000 => in the second
one total 0001 0000 00000001 0000000000000001 0000 0000000000010000 00000000 => in the second
one total 0001 0000 7fffffff 0000000000000001 0000 00007fffffff0000 00000000 => in the second
one => Truncated
one 00 => Truncated
one towns 0401 => OutOfRange
one towns 0001 0400 => OutOfRange
one towns 0001 0000 80000000 => OutOfRange
one towns 0001 0000 ffffffff => OutOfRange
one towns 0001 0000 7fffffff => Truncated
one towns 0001 0000 00000001 0000000000010001 => OutOfRange
one towns 0001 0000 00000001 0000000000010000 => Truncated
one towns 0001 0000 7fffffff 00007fffffff0001 => OutOfRange
one towns 0001 0000 7fffffff 00007fffffff0000 => Truncated
one towns 0001 0000 00000001 0000000000000001 0006 016f736c6f00 \
0000000000010001 0000000000000002 00000000000000000000000000000003 00000000 => BadState
one towns 0001 0000 00000001 0000000000000001 0006 016f736c6f00 \
0000000000000002 0000000000010001 00000000000000000000000000000003 00000000 => BadState
one towns 0001 0000 00000001 0000000000000002 bergen 0006 016f736c6f00 4000000000000000 \
0000000000000002 00000000000000000000000000000003 => BadState
one towns 0001 0000 00000001 0000000000000001 ffff 016f736c6f00 => Truncated
one total 0001 0000 00000001 0000000000000001 0000 0000000000010001 => BadState
one total 0001 0000 7fffffff 0000000000000001 0000 00007fffffff0001 => BadState
one towns 0001 0000 00000001 0000000000000000 00000001 80000000 => OutOfRange
one towns 0001 0000 7fffffff 0000000000000000 00000001 7fffffff => NotCanonical
one towns 0001 0000 7fffffff 0000000000000000 00000001 80000000 => OutOfRange
one towns 0001 0000 00000001 0000000000000000 00000001 00000003 00010001 => OutOfRange
one towns 0001 0000 00000001 0000000000000000 00000001 00000003 00010000 => Truncated
one towns 0001 0000 00000001 0000000000000000 00000000 00 => Trailing";

#[test]
fn files_of_the_first_version_keep_its_bounds(rt: HostRuntime) -> Result<(), Fail> {
    expect_lines(rt, FIRST, told_of_words)
}

/// Columns and queries, and what becomes of a file of them with no origin.
const TEXTS: &str = "\
c text, d bigint|SELECT c, count(*), sum(d) FROM batches GROUP BY c => true
b boolean|SELECT bool_or(b) AS any FROM batches WHERE b IS NOT NULL HAVING count(*) > 1 => true
|SELECT => BadSchema
c  texts|SELECT => BadSchema
c text, c text|SELECT => BadSchema
c  text|SELECT => NotCanonical
c text,d bigint|SELECT => NotCanonical
C text|SELECT => NotCanonical
c text |SELECT => NotCanonical
c text|SELECT => Query(Syntax { at: 6 })
c text| => Query(Syntax { at: 0 })
c text|SELECT x FROM batches GROUP BY x => Query(Query(NoSuchColumn))
c text|SELECT c FROM batches => Query(Query(NotGrouped))
c text|SELECT sum(c) FROM batches => Query(Query(TypeMismatch))
c text|SELECT count(*) FROM batches WHERE count(*) > 1 => Query(Query(AggregateHere))
c text|SELECT count(*) FROM batches WHERE 1 < 9223372036854775808 => Query(NumberTooLarge)
c text|SELECT c FROM batches GROUP BY c; => NotCanonical
c text|SELECT  c FROM batches GROUP BY c => NotCanonical
c text|select c FROM batches GROUP BY c => NotCanonical
c text|SELECT c FROM batches GROUP BY c, c => NotCanonical
c text|SELECT c AS c FROM batches GROUP BY c => NotCanonical
c text|SELECT c FROM batches GROUP BY c ORDER BY 2 => Query(Query(NoSuchColumn))
c text|SELECT c AS x, count(*) AS x FROM batches GROUP BY c ORDER BY x => Query(Query(AmbiguousOrder))
c text|SELECT c FROM batches GROUP BY c ORDER BY c => NotCanonical
c text|SELECT c FROM batches GROUP BY c ORDER BY 1 ASC => NotCanonical
c text|SELECT c FROM batches GROUP BY c ORDER BY 1 NULLS LAST => NotCanonical
c text|SELECT c FROM batches GROUP BY c ORDER BY 1 DESC NULLS FIRST => NotCanonical
c text|SELECT c FROM batches GROUP BY c ORDER BY 1, 1 DESC => NotCanonical";

/// Appends a text behind its length.
fn push_text(bytes: &mut Vec<u8>, text: &str) -> Result<(), Fail> {
    let length = u16::try_from(text.len())?;
    bytes.extend_from_slice(&length.to_be_bytes())?;
    bytes.extend_from_slice(text.as_bytes())?;
    Ok(())
}

/// The file of a schema and a query with no origin.
fn file_of(rt: HostRuntime, schema: &str, query: &str) -> Result<Vec<u8>, Fail> {
    let mut bytes = bytes_of(rt, "two")?;
    push_text(&mut bytes, schema)?;
    push_text(&mut bytes, query)?;
    bytes.extend_from_slice(&[0, 0])?;
    Ok(bytes)
}

/// What becomes of a file of columns and a query.
fn told_of_texts(rt: HostRuntime, texts: &str) -> Result<String, Fail> {
    let (schema, query) = halves(texts, "|")?;
    let bytes = file_of(rt, schema, query)?;
    told(rt, &bytes)
}

#[test]
fn texts_are_canonical(rt: HostRuntime) -> Result<(), Fail> {
    expect_lines(rt, TEXTS, told_of_texts)
}
