//! What holds of the texts of answers.

ghost use Rattle.std.specs.List.{IsDistinct};
ghost use Rattle.std.specs.Str.{bytes_eq};
ghost use Rattle.query_checks.specs.Checks.{Checked};
ghost use Rattle.having_filter.specs.Kept.{IsCheckedQuery, headers};
ghost use Rattle.table_print.specs.Json.{member_names};

/// No object of JSON that an answer has gives a name twice (RFC 8259, 4 Objects).
pub fn json_names_differ()
    ensures { (query : Checked) → IsCheckedQuery query → IsDistinct bytes_eq (member_names (headers query)) }
{}
