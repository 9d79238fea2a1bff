use hex::{decode, encode};
use packed_rows::{
    Schema, Value, ValueKind, pack_key, pack_row, pack_value, read_value, unpack_key, unpack_row,
};
use std::alloc::Global;
use std::test::*;
use test_cases::{expect, expect_lines, halves};

/// Kinds and fields, and what they stand for.
const FIELDS: &str = "\
bigint -9223372036854775808 => Some(Bigint(-9223372036854775808))
bigint 9223372036854775807 => Some(Bigint(9223372036854775807))
int8 9223372036854775808 => None
bigint +007 => Some(Bigint(7))
bigint -0 => Some(Bigint(0))
bigint  => None
bigint - => None
bigint  7 => None
bigint 7  => None
bigint +-7 => None
bigint \\N => Some(Null)
boolean TruE => Some(Boolean(true))
bool t => Some(Boolean(true))
boolean FALSE => Some(Boolean(false))
boolean F => Some(Boolean(false))
boolean  => None
boolean 1 => None
boolean \\N => Some(Null)
text \\N => Some(Null)
text n => Some(Text(\"n\"))
text  => Some(Text(\"\"))
text  '=1 => Some(Text(\" '=1\"))
text a\0 => None
varchar a => no kind";

/// What a field stands for.
fn field(rt: HostRuntime, case: &str) -> Result<String, Fail> {
    let (word, field) = halves(case, " ")?;
    match ValueKind::named(word) {
        Some(kind) => Ok(format!(in rt.alloc(); "{:?}", read_value(field.as_bytes(), kind))?),
        None => Ok(String::from_str(rt.alloc(), "no kind")?),
    }
}

#[test]
fn fields_are_read(rt: HostRuntime) -> Result<(), Fail> {
    expect_lines(rt, FIELDS, field)
}

/// Columns and fields, and the bytes of their row, or why there are none.
const ROWS: &str = "\
c text,d bigint|oslo,+7 => 016f736c6f00018000000000000007
c boolean,d boolean,e boolean|\\N,F,true => 0201000101
c bigint,d bigint|0,-1 => 018000000000000000017fffffffffffffff
c bigint|-9223372036854775808 => 010000000000000000
c bigint|9223372036854775807 => 01ffffffffffffffff
c text|ab => 01616200
c text| => 0100
c text,d bigint|oslo => WrongWidth
c text,d bigint|\0 => WrongWidth
c text,d bigint|\0,x,7 => WrongWidth
c text,d bigint|\0,7a => BadField { column: 0 }
c text,d bigint|\\N,7a => BadField { column: 1 }
c text,d bigint|oslo, => BadField { column: 1 }
c bigint|a,b => WrongWidth";

/// The fields of a row.
fn fields(rt: HostRuntime, row: &str) -> Result<Vec<&[u8]>, Fail> {
    let mut fields = Vec::new(rt.alloc());
    for field in row.split(',') {
        fields.push(field.as_bytes())?;
    }
    Ok(fields)
}

/// The bytes of the row of some fields, or why there are none.
fn packed_fields(rt: HostRuntime, columns: &str, fields: &[&[u8]]) -> Result<String, Fail> {
    let schema = Schema::parse(rt.alloc(), columns)?;
    let packed = pack_row(rt.alloc(), &schema, fields);
    drop(schema);
    match packed {
        Ok(bytes) => {
            let digits = encode(rt.alloc(), bytes.as_slice());
            drop(bytes);
            Ok(digits?)
        }
        Err(error) => Ok(format!(in rt.alloc(); "{error:?}")?),
    }
}

/// The bytes of a row, or why there are none.
fn packed(rt: HostRuntime, case: &str) -> Result<String, Fail> {
    let (columns, row) = halves(case, "|")?;
    let fields = fields(rt, row)?;
    let packed = packed_fields(rt, columns, &fields);
    drop(fields);
    packed
}

#[test]
fn rows_are_packed(rt: HostRuntime) -> Result<(), Fail> {
    expect_lines(rt, ROWS, packed)
}

/// Columns and bytes, and the values of the row whose packing they are.
const PACKINGS: &str = "\
c text,d bigint|016f736c6f00018000000000000007 => [Text(\"oslo\"), Bigint(7)]
c boolean,d boolean,e boolean|0201000101 => [Null, Boolean(false), Boolean(true)]
c bigint|010000000000000000 => [Bigint(-9223372036854775808)]
c text|0100 => [Text(\"\")]
c text| => BadPacked
c text|00 => BadPacked
c text|03 => BadPacked
c text|01 => BadPacked
c text|016162 => BadPacked
c text|015c4e00 => BadPacked
c text|01ff00 => BadPacked
c text|0161620002 => BadPacked
c boolean|01 => BadPacked
c boolean|0102 => BadPacked
c bigint|0180000000000000 => BadPacked
c bigint,d text|02 => BadPacked
c bigint,d text|0161620002 => BadPacked";

/// The values of a row of some columns and these bytes, or why there are none.
fn values(alloc: Global, columns: &str, bytes: &[u8]) -> Result<String, Fail> {
    let schema = Schema::parse(alloc, columns)?;
    let told = match unpack_row(alloc, &schema, bytes) {
        Ok(row) => format!(in alloc; "{row:?}"),
        Err(error) => format!(in alloc; "{error:?}"),
    };
    drop(schema);
    Ok(told?)
}

/// The same of bytes that a text tells.
fn unpacked(rt: HostRuntime, case: &str) -> Result<String, Fail> {
    let (columns, text) = halves(case, "|")?;
    let bytes = decode(rt.alloc(), text)?;
    let told = values(rt.alloc(), columns, &bytes);
    drop(bytes);
    told
}

#[test]
fn rows_are_unpacked(rt: HostRuntime) -> Result<(), Fail> {
    expect_lines(rt, PACKINGS, unpacked)
}

/// A key of values of all kinds, and the kinds.
const KEY: [Value<'static>; 6] = [
    Value::Text("ab"),
    Value::Null,
    Value::Bigint(7),
    Value::Bigint(-1),
    Value::Boolean(false),
    Value::Boolean(true),
];

const KINDS: [ValueKind; 6] = [
    ValueKind::Text,
    ValueKind::Bigint,
    ValueKind::Bigint,
    ValueKind::Bigint,
    ValueKind::Boolean,
    ValueKind::Boolean,
];

/// Its bytes: a null is `02`, and else `01` stands in front: of a text's bytes and `00`, of the eight bytes of a number, the highest
/// bit of which is turned, and of `00` or `01`.
const PACKED: &str = "0161620002018000000000000007017fffffffffffffff01000101";

/// The bytes of this key.
fn packed_key(alloc: Global) -> Result<String, Fail> {
    let bytes = pack_key(alloc, &KEY)?;
    Ok(encode(alloc, bytes.as_slice())?)
}

/// The bytes of its values, one behind the other.
fn packed_values(alloc: Global) -> Result<String, Fail> {
    let mut bytes = Vec::new(alloc);
    for value in KEY {
        pack_value(&mut bytes, value)?;
    }
    Ok(encode(alloc, bytes.as_slice())?)
}

/// Whether these bytes are unpacked to the key.
fn is_unpacked(alloc: Global) -> Result<bool, Fail> {
    let bytes = decode(alloc, PACKED)?;
    let key = unpack_key(alloc, &KINDS, &bytes)?;
    Ok(key.as_slice() == KEY.as_slice())
}

#[test]
fn keys_are_packed_and_unpacked(rt: HostRuntime) -> Result<(), Fail> {
    expect(packed_key(rt.alloc()), PACKED)?;
    expect(packed_values(rt.alloc()), PACKED)?;
    assert!(rt; is_unpacked(rt.alloc())?);
    Ok(())
}
