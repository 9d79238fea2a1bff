//! Schemas, values, and the packing of rows and keys.
#![tactic(auto)]

mod error;
mod field;
mod laws;
mod order;
mod packing;
mod rows;
mod rows_concatenated;
mod schema;
mod schema_text;
mod shared_rows;
mod unpacking;
mod value;

pub use error::RowError;
pub use field::{read_value, reading};
pub use laws::{packing_order, printed_schemas};
pub use order::{compare, same};
pub use packing::{pack_key, pack_value};
pub use rows::{pack_row, unpack_row};
pub use rows_concatenated::bound;
pub use schema::Schema;
pub use shared_rows::PackedRows;
pub use unpacking::{part_at, unpack_into, unpack_key, unpack_known};
pub use value::{Value, ValueKind};
