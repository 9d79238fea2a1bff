//! Schemas: the columns of a table.

ghost use Rattle.std.specs.Prelude.{◌≡◌, ◌<◌, ◌++◌, List, length, slice_get, option_map, Some, IfOk, IfErr, OnOk, string_bytes};
ghost use Rattle.packed_rows.specs.View.{kind_of, kinds_of};
ghost use Rattle.packed_rows.specs.Columns.{Column, columns_of, kinds, place_of, printed, column_text, AreColumns, IsSchemaText};
ghost use Rattle.packed_rows.specs.Refusal.{ParseFault};

use crate::error::RowError;
use crate::schema_text::{Columns, read_columns, read_tokens};
use crate::value::ValueKind;
use std::alloc::{AllocError, Global};
use std::marker::Model;

/// The names and kinds of the columns of a table, from the first on: 1 to 32, no two of one name.
#[derive(Drop)]
pub struct Schema {
    alloc: Global,
    columns: Columns,
}

impl Model for Schema {
    ghost Value = { List Column };

    ghost view = { λ schema. columns_of schema.columns.entries };

    ghost invariant = { λ schema. AreColumns (columns_of schema.columns.entries) };
}

impl Schema {
    /// The schema that a text describes: for each column its name and its kind, separated by commas, as
    /// `c text, d bigint`. There are 1 to 32 columns of different names; a name is at most 63 letters, digits and `_`,
    /// does not begin with a digit, is no reserved word of queries, and is folded to lower case. The kinds are `bigint` or
    /// `int8`, `boolean` or `bool`, and `text`. Any other text is `BadSchema`.
    pub fn parse(alloc: Global, text: &str) -> Result<Schema, RowError>
        ensures parsed { IfOk result (λ schema. IsSchemaText text.now schema) }
        ensures refused { IfErr result (ParseFault text.now) }
    {
        let tokens = read_tokens(alloc, text)?;
        let columns = read_columns(alloc, &tokens)?;
        Ok(Schema { alloc, columns })
    }

    /// A schema of the same columns. The only error is a failed allocation.
    pub fn try_clone(&self) -> Result<Schema, AllocError>
        ensures same { IfOk result (λ schema. schema ≡ self.now) }
        ensures columns { IfOk result AreColumns }
    {
        let columns = self.columns.clone()?;
        Ok(Schema {
            alloc: self.alloc,
            columns,
        })
    }

    /// How many columns there are, from 1 to 32.
    pub fn width(&self) -> usize
        ensures width { result ≡ length self.now }
        ensures columns { AreColumns self.now }
    {
        self.columns.len()
    }

    /// The kinds of the columns, in their order.
    pub fn kinds(&self) -> &[ValueKind]
        ensures { kinds_of result.now ≡ kinds self.now }
    {
        self.columns.values().as_slice()
    }

    /// The kind of a column, the first being column 0.
    pub fn kind(&self, column: usize) -> ValueKind
        requires { column < length self.now }
        ensures { option_map (λ c. c.kind) (slice_get self.now column) ≡ Some (kind_of result) }
    {
        self.kinds()[column]
    }

    /// The name of a column, the first being column 0, in lower case.
    pub fn name(&self, column: usize) -> &str
        requires { column < length self.now }
        ensures { option_map (λ c. c.name) (slice_get self.now column) ≡ Some result.now }
    {
        self.columns.keys().as_slice()[column].as_str()
    }

    /// The column of this name, the first being column 0. The name is compared as it is, so it must be in lower case.
    pub fn place(&self, name: &str) -> Option<usize>
        ensures { result ≡ place_of name.now self.now }
    {
        self.columns.get_index_of(name)
    }

    /// The schema's canonical text, as `c text, d bigint`: names in lower case, kinds by the names `bigint`, `boolean`
    /// and `text`. `parse` reads it as this schema. The only error is a failed allocation.
    pub fn print(&self) -> Result<String, AllocError>
        ensures printed { IfOk result (λ text. string_bytes text ≡ printed self.now) }
        ensures read_again { IfOk result (λ text. IsSchemaText (string_bytes text) self.now) }
    {
        let mut text = String::new(self.alloc);
        for column in 0..self.width() {
            if column > 0 {
                text.push_str(", ")?;
            }
            push_column(&mut text, self.name(column), self.kind(column))?;
        }
        Ok(text)
    }
}

/// Appends a column's name and the name of its kind.
fn push_column(text: &mut String, name: &str, kind: ValueKind) -> Result<(), AllocError>
    ensures { OnOk result (string_bytes text.new
        ≡ string_bytes text.old ++ column_text (record { name = name.now; kind = kind_of kind })) }
{
    text.push_str(name)?;
    text.push(' ')?;
    text.push_str(kind.as_str())?;
    Ok(())
}
