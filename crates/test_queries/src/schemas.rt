ghost use Rattle.std.specs.Prelude.{◌<◌, length};

use packed_rows::Schema;
use std::alloc::{AllocError, Global};
use std::test::*;
use test_cases::{expect, expect_lines};

/// Texts, and how their schemas are printed, or that they have none.
const SCHEMAS: &str = "\
C\tText ,d int8,  _e1 BOOL => c text, d bigint, _e1 boolean
c text,C1 text,c2 boolean => c text, c1 text, c2 boolean
a_name_that_has_as_many_letters_as_a_name_may_have_which_are_63 bigint => \
    a_name_that_has_as_many_letters_as_a_name_may_have_which_are_63 bigint
 => BadSchema
  => BadSchema
c => BadSchema
c text, => BadSchema
, c text => BadSchema
c text d text => BadSchema
c text; => BadSchema
c text, c bigint => BadSchema
c text, C bigint => BadSchema
c varchar => BadSchema
c text(5) => BadSchema
1c text => BadSchema
'c' text => BadSchema
select text => BadSchema
c bigint, order text => BadSchema
c text, d bigint? => BadSchema
c text, d 9223372036854775808 => BadSchema
na\u{ef}ve text => BadSchema
xa_name_that_has_as_many_letters_as_a_name_may_have_which_are_63 bigint => BadSchema";

/// How a copy of a schema is printed.
fn copied(schema: &Schema) -> Result<String, Fail> {
    let copy = schema.try_clone()?;
    let printed = copy.print();
    drop(copy);
    Ok(printed?)
}

/// How a text's schema is printed.
fn printed(rt: HostRuntime, text: &str) -> Result<String, Fail> {
    match Schema::parse(rt.alloc(), text) {
        Ok(schema) => {
            let copied = copied(&schema);
            drop(schema);
            copied
        }
        Err(error) => Ok(format!(in rt.alloc(); "{error:?}")?),
    }
}

#[test]
fn schemas_are_read_and_printed(rt: HostRuntime) -> Result<(), Fail> {
    expect_lines(rt, SCHEMAS, printed)?;
    expect(printed(rt, "\n c\r text\x0b\x0c\n"), "c text")
}

/// Tells a column of a schema: its name, its kind and its place.
fn tell_column(
    alloc: Global,
    schema: &Schema,
    column: usize,
    text: &mut String,
) -> Result<(), AllocError>
    requires { column < length schema.now }
{
    let name = schema.name(column);
    let told = format!(in alloc;
        "{name} {:?} {:?} ",
        schema.kind(column),
        schema.place(name)
    )?;
    text.push_str(&told)
}

/// Tells the columns of a schema, one by one, and their kinds, and whether it has a column `C`.
fn tell_columns(alloc: Global, schema: &Schema, text: &mut String) -> Result<(), AllocError> {
    for column in 0..schema.width() {
        tell_column(alloc, schema, column, text)?;
    }
    let told = format!(in alloc; "{:?} {:?}", schema.kinds(), schema.place("C"))?;
    text.push_str(&told)
}

/// The columns of a text's schema.
fn told(alloc: Global, text: &str) -> Result<String, Fail> {
    let schema = Schema::parse(alloc, text)?;
    let mut told = String::new(alloc);
    let columns = tell_columns(alloc, &schema, &mut told);
    drop(schema);
    columns?;
    Ok(told)
}

#[test]
fn columns_are_told(rt: HostRuntime) -> Result<(), Fail> {
    expect(
        told(rt.alloc(), "c text, d bigint, e bool"),
        "c Text Some(0) d Bigint Some(1) e Boolean Some(2) [Text, Bigint, Boolean] None",
    )
}
