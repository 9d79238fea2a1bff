//! The canonical text of queries.

ghost use Rattle.std.specs.Prelude.{◌≡◌, ◌++◌, map, option_map, IfOk, OnOk, string_bytes};
ghost use Rattle.std.specs.List.{flat_map};
ghost use Rattle.std.specs.Str.{bytes_eq};
ghost use Rattle.query_tokens.specs.Words as words;
ghost use Rattle.query_tokens.specs.Spelling.{spell, spell_byte};
ghost use Rattle.agg_protocol.specs.Kinds.{function_of};
ghost use Rattle.packed_rows.specs.View.{texts_of};
ghost use Rattle.query_checks.specs.Forms.{form_of, call_form, item_form, names_of, items_of, written_of};
ghost use Rattle.query_checks.specs.Order.{direction_text, term_text, order_text};
ghost use Rattle.query_checks.specs.Arrangement.{asked_of, arrangement_held, arrangement_of};
ghost use Rattle.query_checks.specs.Sameness.{first_of_each};
ghost use Rattle.query_checks.specs.Spelling.{call_text, level, operand, spelled, own_name, kept_alias, item_text, clause_text};
ghost use Rattle.query_checks.specs.Parted.{parted};
ghost use Rattle.query_checks.specs.Spelling.{keys_text, written_text, spelling};

use crate::arrangement::{Arrangement, push_arrangement};
use crate::condition::{AggCall, Cond, Item, RawQuery};
use crate::levels::{AND, COMPARISON, IS, NOT, OPERAND, OR};
use crate::order::OrderTerm;
use agg_protocol::AggKind;
use itoa::Buffer;
use std::alloc::{AllocError, Global};

/// How tightly a condition binds.
fn level(condition: &Cond<String>) -> u64
    ensures { result ≡ level (names_of (form_of condition.now)) }
{
    match condition {
        Cond::Or(..) => OR,
        Cond::And(..) => AND,
        Cond::Not(_) => NOT,
        Cond::Is { .. } => IS,
        Cond::Compare(..) => COMPARISON,
        _ => OPERAND,
    }
}

/// Appends what stands between a string's quotes.
fn push_quoted(text: &mut String, literal: &str) -> Result<(), AllocError>
    ensures { OnOk result (string_bytes text.new
        ≡ string_bytes text.old ++ flat_map spell_byte literal.now) }
{
    let mut rest = literal;
    while let Some((piece, behind)) = rest.split_once('\'') {
        text.push_str(piece)?;
        text.push_str("''")?;
        rest = behind;
    }
    text.push_str(rest)?;
    Ok(())
}

/// Appends a string in its quotes.
fn push_string(text: &mut String, literal: &str) -> Result<(), AllocError>
    ensures { OnOk result (string_bytes text.new
        ≡ string_bytes text.old ++ spell (words.Text literal.now)) }
{
    text.push_str("'")?;
    push_quoted(text, literal)?;
    text.push_str("'")
}

/// Appends a number in plain decimal.
fn push_number(text: &mut String, number: i64) -> Result<(), AllocError>
    ensures { OnOk result (string_bytes text.new
        ≡ string_bytes text.old ++ spell (words.Integer number)) }
{
    text.push_str(Buffer::new().format(number))
}

/// Appends a call without its FILTER.
fn push_function(
    text: &mut String,
    function: AggKind,
    column: &Option<String>,
) -> Result<(), AllocError>
    ensures { OnOk result (string_bytes text.new ≡ string_bytes text.old
        ++ call_text (function_of function) (option_map string_bytes column.now)) }
{
    text.push_str(function.name())?;
    match column {
        Some(name) => {
            text.push_str("(")?;
            text.push_str(name)?;
            text.push_str(")")
        }
        None => text.push_str("(*)"),
    }
}

/// Appends a call.
#[cycle(push)]
#[tactic(auto, using(crate::proofs::SpellingLaws::filtered_call))]
fn push_call(text: &mut String, call: &AggCall<String>) -> Result<(), AllocError>
    ensures { OnOk result (string_bytes text.new
        ≡ string_bytes text.old ++ spelled (names_of (call_form call.now))) }
{
    push_function(text, call.kind, &call.column)?;
    if let Some(filter) = &call.filter {
        text.push_str(" FILTER (WHERE ")?;
        push_condition(text, filter)?;
        text.push_str(")")?;
    }
    Ok(())
}

/// Appends an operand, in parentheses where it binds less tightly than its place asks.
#[cycle(push)]
fn push_operand(text: &mut String, asked: u64, condition: &Cond<String>) -> Result<(), AllocError>
    ensures { OnOk result (string_bytes text.new ≡ string_bytes text.old
        ++ operand asked (names_of (form_of condition.now))
        (spelled (names_of (form_of condition.now)))) }
{
    if level(condition) >= asked {
        return push_condition(text, condition);
    }
    text.push_str("(")?;
    push_condition(text, condition)?;
    text.push_str(")")
}

/// Appends an operator and the operand after it.
#[cycle(push)]
fn push_behind(
    text: &mut String,
    operator: &str,
    asked: u64,
    condition: &Cond<String>,
) -> Result<(), AllocError>
    ensures { OnOk result (string_bytes text.new ≡ string_bytes text.old ++ operator.now
        ++ operand asked (names_of (form_of condition.now))
        (spelled (names_of (form_of condition.now)))) }
{
    text.push_str(operator)?;
    push_operand(text, asked, condition)
}

/// Appends a condition.
#[cycle(push)]
fn push_condition(text: &mut String, condition: &Cond<String>) -> Result<(), AllocError>
    ensures { OnOk result (string_bytes text.new
        ≡ string_bytes text.old ++ spelled (names_of (form_of condition.now))) }
{
    match condition {
        Cond::Column(name) => text.push_str(name),
        Cond::Call(call) => push_call(text, call),
        Cond::Bigint(number) => push_number(text, *number),
        Cond::Text(literal) => push_string(text, literal),
        Cond::Boolean(true) => text.push_str("TRUE"),
        Cond::Boolean(false) => text.push_str("FALSE"),
        Cond::Null => text.push_str("NULL"),
        Cond::Not(c) => push_behind(text, "NOT ", NOT, c),
        Cond::Or(c, d) => {
            push_operand(text, OR, c)?;
            push_behind(text, " OR ", OR + 1, d)
        }
        Cond::And(c, d) => {
            push_operand(text, AND, c)?;
            push_behind(text, " AND ", AND + 1, d)
        }
        Cond::Compare(comparison, c, d) => {
            push_operand(text, COMPARISON + 1, c)?;
            push_behind(text, comparison.text(), OPERAND, d)
        }
        Cond::Is {
            test,
            negated,
            operand,
        } => {
            push_operand(text, IS, operand)?;
            text.push_str(if *negated { " IS NOT " } else { " IS " })?;
            text.push_str(test.text())
        }
    }
}

/// An item's own name: that of its column or function (PostgreSQL 17, 7.3.2).
pub fn own_name(item: &Item<String>) -> &str
    ensures { result.now ≡ own_name (names_of (item_form item.now)) }
{
    match item {
        Item::Column(name) => name.as_str(),
        Item::Call(call) => call.kind.name(),
    }
}

/// An alias, which is none where it is the item's own name.
pub fn kept_alias<'a>(own: &str, alias: &'a Option<String>) -> Option<&'a str>
    ensures { option_map (λ alias. alias.now) result
        ≡ kept_alias own.now (option_map string_bytes alias.now) }
{
    match alias {
        Some(alias) if alias.as_str() != own => Some(alias.as_str()),
        _ => None,
    }
}

/// Appends an item without its alias.
fn push_value(text: &mut String, item: &Item<String>) -> Result<(), AllocError>
    ensures { OnOk result (string_bytes text.new
        ≡ string_bytes text.old ++ spelled (names_of (item_form item.now))) }
{
    match item {
        Item::Column(name) => text.push_str(name),
        Item::Call(call) => push_call(text, call),
    }
}

/// Appends an item.
fn push_item(text: &mut String, item: &(Item<String>, Option<String>)) -> Result<(), AllocError>
    ensures { OnOk result (string_bytes text.new ≡ string_bytes text.old
        ++ item_text (names_of (item_form item.now.0), option_map string_bytes item.now.1)) }
{
    push_value(text, &item.0)?;
    if let Some(alias) = kept_alias(own_name(&item.0), &item.1) {
        text.push_str(" AS ")?;
        text.push_str(alias)?;
    }
    Ok(())
}

/// Appends items, separated by commas.
fn push_items(text: &mut String, items: &[(Item<String>, Option<String>)]) -> Result<(), AllocError>
    ensures { OnOk result (string_bytes text.new
        ≡ string_bytes text.old ++ parted (map item_text (items_of items.now))) }
{
    let Some((first, rest)) = items.split_first() else {
        return Ok(());
    };
    push_item(text, first)?;
    for item in rest {
        text.push_str(", ")?;
        push_item(text, item)?;
    }
    Ok(())
}

/// Appends a condition after a key word, if there is one.
fn push_clause(
    text: &mut String,
    word: &str,
    clause: &Option<Cond<String>>,
) -> Result<(), AllocError>
    ensures { OnOk result (string_bytes text.new ≡ string_bytes text.old
        ++ clause_text word.now (option_map (λ c. names_of (form_of c)) clause.now)) }
{
    if let Some(condition) = clause {
        text.push_str(word)?;
        push_condition(text, condition)?;
    }
    Ok(())
}

/// Appends names, separated by commas.
fn push_names(text: &mut String, names: &[&str]) -> Result<(), AllocError>
    ensures { OnOk result (string_bytes text.new
        ≡ string_bytes text.old ++ parted (texts_of names.now)) }
{
    let Some((first, rest)) = names.split_first() else {
        return Ok(());
    };
    text.push_str(first)?;
    for name in rest {
        text.push_str(", ")?;
        text.push_str(name)?;
    }
    Ok(())
}

/// Appends GROUP BY and the names of its columns, if there are any.
fn push_keys(text: &mut String, keys: &[&str]) -> Result<(), AllocError>
    ensures { OnOk result (string_bytes text.new
        ≡ string_bytes text.old ++ keys_text (texts_of keys.now)) }
{
    if keys.is_empty() {
        return Ok(());
    }
    text.push_str(" GROUP BY ")?;
    push_names(text, keys)
}

/// The direction of a term of ORDER BY, and where nulls come, unless that is the direction's default.
fn direction_text(descending: bool, nulls_first: bool) -> &'static str
    ensures { result.now ≡ direction_text descending nulls_first }
{
    match (descending, nulls_first) {
        (false, false) => "",
        (false, true) => " NULLS FIRST",
        (true, true) => " DESC",
        (true, false) => " DESC NULLS LAST",
    }
}

/// Appends a term of ORDER BY.
fn push_term(text: &mut String, term: OrderTerm) -> Result<(), AllocError>
    ensures { OnOk result (string_bytes text.new ≡ string_bytes text.old ++ term_text term) }
{
    text.push_str(Buffer::new().format(term.item as u128 + 1))?;
    text.push_str(direction_text(term.descending, term.nulls_first))
}

/// Appends terms of ORDER BY, separated by commas.
fn push_terms(text: &mut String, order: &[OrderTerm]) -> Result<(), AllocError>
    ensures { OnOk result (string_bytes text.new
        ≡ string_bytes text.old ++ parted (map term_text order.now)) }
{
    let Some((first, rest)) = order.split_first() else {
        return Ok(());
    };
    push_term(text, *first)?;
    for term in rest {
        text.push_str(", ")?;
        push_term(text, *term)?;
    }
    Ok(())
}

/// Appends ORDER BY and its terms, if there are any.
pub(crate) fn push_order(text: &mut String, order: &[OrderTerm]) -> Result<(), AllocError>
    ensures { OnOk result (string_bytes text.new
        ≡ string_bytes text.old ++ order_text order.now) }
{
    if order.is_empty() {
        return Ok(());
    }
    text.push_str(" ORDER BY ")?;
    push_terms(text, order)
}

/// The text of a query up to its HAVING, given the distinct names of its columns of GROUP BY.
fn written(alloc: Global, raw: &RawQuery, keys: &[&str]) -> Result<String, AllocError>
    requires { texts_of keys.now ≡ first_of_each bytes_eq (written_of raw.now).keys }
    ensures { IfOk result (λ text. string_bytes text ≡ written_text (written_of raw.now)) }
{
    let mut text = String::from_str(alloc, "SELECT ")?;
    push_items(&mut text, &raw.items)?;
    text.push_str(" FROM batches")?;
    push_clause(&mut text, " WHERE ", &raw.condition)?;
    push_keys(&mut text, keys)?;
    push_clause(&mut text, " HAVING ", &raw.having)?;
    Ok(text)
}

/// The canonical text of a query, given the distinct names of its columns of GROUP BY and how its answer is arranged.
pub(crate) fn spelled(
    alloc: Global,
    raw: &RawQuery,
    keys: &[&str],
    arrangement: &Arrangement,
) -> Result<String, AllocError>
    requires keys { texts_of keys.now ≡ first_of_each bytes_eq (written_of raw.now).keys }
    requires arrangement { arrangement_held arrangement.now ≡ arrangement_of (asked_of raw.now) }
    ensures { IfOk result (λ text. string_bytes text ≡ spelling (asked_of raw.now)) }
{
    let mut text = written(alloc, raw, keys)?;
    push_arrangement(&mut text, arrangement)?;
    Ok(text)
}
