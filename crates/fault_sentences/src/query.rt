//! Why a text is not a query over a schema.

use crate::hints::of_word;
use crate::nearest::{nearest_column, say_near};
use crate::places::tokens_before;
use crate::syntax::{say_large, say_syntax};
use crate::tour::{Mention, Role, Tour};
use group_parser::{ParseError, count_begun, read};
use grouping_model::limits::{
    DEEPEST_CONDITION, MAX_CALLS, MAX_ITEMS, MAX_KEYS, MAX_OPEN, MAX_QUERY_LEN,
};
use having_filter::{Item, OrderBy, QueryError, RawQuery};
use packed_rows::Schema;
use query_checks::{is_same_call, label};
use query_tokens::Token;
use sentences::{Reason, Said};
use std::alloc::{AllocError, Global};

/// A query that was read from a text, and that a check refused.
#[derive(Drop)]
struct Refused<'t> {
    alloc: Global,
    schema: &'t Schema,
    query: &'t RawQuery,
    tour: Tour<'t>,
}

/// Whether two items are the same column or call.
fn are_same(one: &Item<String>, other: &Item<String>) -> bool {
    match (one, other) {
        (Item::Column(a), Item::Column(b)) => a == b,
        (Item::Call(a), Item::Call(b)) => is_same_call(a, b),
        _ => false,
    }
}

/// Says an item as it is written, but for what its FILTER asks.
fn say_item(said: &mut Said, item: &Item<String>) {
    match item {
        Item::Column(name) => said.push_str(name.as_str()),
        Item::Call(call) => {
            said.push_str(call.kind.name());
            said.push('(');
            said.push_str(match &call.column {
                Some(name) => name.as_str(),
                None => "*",
            });
            said.push(')');
            if call.filter.is_some() {
                said.push_str(" FILTER (WHERE ..)");
            }
        }
    }
}

/// What is said of the name of an item where it means nothing.
#[derive(Clone, Copy)]
enum Advice {
    /// In HAVING.
    Having,
    /// In WHERE or a FILTER, of a column.
    Condition,
    /// In WHERE or a FILTER, of a call.
    Aggregate,
    /// In GROUP BY, of a column.
    Key,
}

impl Advice {
    /// What is said where a name has a role, if it means nothing there.
    fn on(role: Role, item: &Item<String>) -> Option<Advice> {
        match (role, item) {
            (Role::Having, _) => Some(Advice::Having),
            (Role::Condition, Item::Column(_)) => Some(Advice::Condition),
            (Role::Condition, Item::Call(_)) => Some(Advice::Aggregate),
            (Role::Key, Item::Column(_)) => Some(Advice::Key),
            _ => None,
        }
    }

    /// What stands before and behind the item.
    fn words(self) -> (&'static str, &'static str) {
        match self {
            Advice::Having => ("which is not visible in HAVING: write ", ""),
            Advice::Condition => ("which is not visible in WHERE and FILTER: write ", ""),
            Advice::Aggregate => (
                "which is not visible in WHERE and FILTER: test ",
                " in HAVING",
            ),
            Advice::Key => ("and GROUP BY takes columns: write ", ""),
        }
    }
}

/// Whether an item has a name.
fn has_name(item: &(Item<String>, Option<String>), name: &str) -> bool {
    label(item) == name
}

/// How many items have a name.
fn count_named(query: &RawQuery, name: &str) -> usize {
    query
        .items
        .iter()
        .filter(|item| has_name(*item, name))
        .count()
}

/// Whether all items that have a name are the same.
fn are_alike(query: &RawQuery, name: &str) -> bool {
    match query.items.iter().find(|item| has_name(*item, name)) {
        Some(first) => query.items.iter().all(|item| !has_name(item, name)
            || are_same(&first.0, &item.0)),
        None => true,
    }
}

/// How many different names there are.
fn count_names(names: &[String]) -> usize {
    let mut count = 0usize;
    for (place, name) in names.iter().enumerate() {
        if !names.iter().take(place).any(|other| other == name) {
            count = count.saturating_add(1);
        }
    }
    count
}

/// Says of what a term of ORDER BY names that it is not an item, if it is none.
fn say_target(said: &mut Said, query: &RawQuery, target: &OrderBy) {
    let many = query.items.len();
    match target {
        OrderBy::Name(name) if count_named(query, name.as_str()) == 0 => {
            said.quote(name.as_bytes());
            said.push_str(" names no item: a term of ORDER BY is the name or the place of an item");
        }
        OrderBy::Place(number) if *number < 1 || *number as u64 > many as u64 => {
            write!(said, "there is no item {number}");
            said.count(": the items are 1 to ", many);
        }
        _ => {}
    }
}

/// Says of what a term of ORDER BY names that it is items that aren't the same, if so.
fn say_unlike(said: &mut Said, query: &RawQuery, target: &OrderBy) {
    let OrderBy::Name(name) = target else {
        return;
    };
    if !are_alike(query, name.as_str()) {
        let count = count_named(query, name.as_str());
        said.quote(name.as_bytes());
        said.count(" names ", count);
        said.push_str(" different items: rename one with AS, or write its place");
    }
}

/// Says of a name which item it names, and what serves where the name means nothing.
fn say_unseen(said: &mut Said, item: &Item<String>, advice: Advice) {
    let (before, behind) = advice.words();
    said.push_str(" names an item, ");
    said.push_str(before);
    say_item(said, item);
    said.push_str(behind);
}

impl<'t> Refused<'t> {
    /// Says which column there is not, which is near to it, and which there are: where it is named.
    fn say_no_column(&self, said: &mut Said) -> Option<usize> {
        for mention in &self.tour.mentions {
            if self.schema.place(mention.name).is_none() {
                self.say_name(said, mention);
                return Some(mention.at);
            }
        }
        self.say_no_item(said)
    }

    /// The item that has a name, and what is said of it where the name means nothing.
    fn unseen(&self, mention: &Mention<'_>) -> Option<(&'t Item<String>, Advice)> {
        for item in &self.query.items {
            if has_name(item, mention.name) {
                let advice = Advice::on(mention.role, &item.0)?;
                return Some((&item.0, advice));
            }
        }
        None
    }

    /// Says what a name may stand for that is no column's.
    fn say_help(&self, said: &mut Said, mention: &Mention<'_>) {
        let near = said.found(nearest_column(self.alloc, mention.name, self.schema));
        say_near(said, near);
        said.push_aside(match (near, of_word(mention.name), mention.role) {
            (None, None, Role::Condition) => Some("write texts in single quotes"),
            (None, hint, _) => hint,
            (Some(_), _, _) => None,
        });
    }

    /// Says of a name that it is no column's.
    fn say_name(&self, said: &mut Said, mention: &Mention<'_>) {
        said.quote(mention.name.as_bytes());
        match self.unseen(mention) {
            Some((item, advice)) => say_unseen(said, item, advice),
            None => {
                said.push_str(" is not a column");
                self.say_help(said, mention);
                said.push_str("; the columns are ");
                said.push_made(self.schema.print());
            }
        }
    }

    /// Says which term of ORDER BY names no item: where it stands.
    fn say_no_item(&self, said: &mut Said) -> Option<usize> {
        for (term, place) in self.query.order.iter().zip(self.tour.terms.iter()) {
            say_target(said, self.query, &term.target);
            if !said.is_silent() {
                return Some(*place);
            }
        }
        None
    }

    /// Says which term of ORDER BY names items that aren't the same: where it stands.
    fn say_ambiguous(&self, said: &mut Said) -> Option<usize> {
        for (term, place) in self.query.order.iter().zip(self.tour.terms.iter()) {
            say_unlike(said, self.query, &term.target);
            if !said.is_silent() {
                return Some(*place);
            }
        }
        None
    }

    /// Says which aggregate stands in WHERE or a FILTER: where.
    fn say_aggregate(&self, said: &mut Said) -> Option<usize> {
        let (function, at) = self.tour.misplaced?;
        let name = function.name();
        said.text("the aggregate ", name);
        said.push_str(" is not allowed in WHERE or FILTER: move it to HAVING");
        Some(at)
    }

    /// Says which kinds don't fit: where that is.
    fn say_clash(&self, said: &mut Said) -> Option<usize> {
        let (clash, at) = self.tour.clash?;
        clash.say(said);
        Some(at)
    }

    /// Whether a name is a column of GROUP BY.
    fn is_key(&self, name: &str) -> bool {
        self.query.keys.iter().any(|key| key.as_str() == name)
    }

    /// Says which column is not in GROUP BY: where it is named.
    fn say_not_grouped(&self, said: &mut Said) -> Option<usize> {
        for mention in &self.tour.mentions {
            if matches!(mention.role, Role::Outside | Role::Having) && !self.is_key(mention.name) {
                said.quoted("column ", mention.name.as_bytes());
                said.push_str(" must appear in GROUP BY or be used in a call");
                return Some(mention.at);
            }
        }
        None
    }

    /// How many different calls stand among the items and in HAVING.
    fn count_calls(&self) -> usize {
        let calls = &self.tour.calls;
        let mut count = 0usize;
        for (place, call) in calls.iter().enumerate() {
            if !calls
                .iter()
                .take(place)
                .any(|other| is_same_call(*other, *call))
            {
                count = count.saturating_add(1);
            }
        }
        count
    }

    /// Says of what there is too much, how much, and how much there may be.
    fn say_too_many(&self, said: &mut Said) {
        let items = self.query.items.len();
        let (keys, calls) = (count_names(&self.query.keys), self.count_calls());
        if items > MAX_ITEMS {
            said.count("", items);
            said.count(" items; the limit is ", MAX_ITEMS);
        } else if keys > MAX_KEYS {
            said.count("", keys);
            said.count(" columns in GROUP BY; the limit is ", MAX_KEYS);
        } else if calls > MAX_CALLS {
            said.count("", calls);
            said.count(" different calls; the limit is ", MAX_CALLS);
        } else {
            said.count("the canonical text is longer than ", MAX_QUERY_LEN);
            said.push_str(" bytes");
        }
    }

    /// Says which condition is too deep: where that is.
    fn say_too_deep(&self, said: &mut Said) -> usize {
        let (depth, at) = self.tour.deepest;
        said.count("a condition is ", depth);
        said.number(" levels deep; the limit is ", DEEPEST_CONDITION);
        said.push_str(": split a long chain into pairs, as (a OR b) OR (c OR d)");
        at
    }

    /// Says why a check of the query does not pass: where, if a place is known.
    fn say_check(&self, said: &mut Said, why: QueryError) -> Option<usize> {
        match why {
            QueryError::NoMemory => None,
            QueryError::NoSuchColumn => self.say_no_column(said),
            QueryError::NotGrouped => self.say_not_grouped(said),
            QueryError::TypeMismatch => self.say_clash(said),
            QueryError::AggregateHere => self.say_aggregate(said),
            QueryError::TooMany => {
                self.say_too_many(said);
                None
            }
            QueryError::TooDeep => Some(self.say_too_deep(said)),
            QueryError::AmbiguousOrder => self.say_ambiguous(said),
        }
    }
}

/// Says at which of a text's tokens too many parentheses are open.
fn say_open(
    alloc: Global,
    said: &mut Said,
    text: &str,
    tokens: &[Token],
) -> Result<usize, AllocError> {
    let begun = count_begun(alloc, tokens)?;
    said.count("more than ", MAX_OPEN);
    said.push_str(" parentheses are open here");
    Ok(match tokens.get(begun) {
        Some(token) => token.at,
        None => text.len(),
    })
}

/// Says why a check refuses a query that was read from a text of these tokens.
fn say_checked(
    alloc: Global,
    said: &mut Said,
    schema: &Schema,
    tokens: &[Token],
    query: &RawQuery,
    why: QueryError,
) -> Result<Option<usize>, AllocError> {
    let refused = Refused {
        alloc,
        schema,
        query,
        tour: Tour::of(alloc, schema, tokens, query)?,
    };
    let place = refused.say_check(said, why);
    drop(refused);
    Ok(place)
}

/// Says why a text that has these tokens is refused, though each of them may stand where it does.
fn say_refused(
    alloc: Global,
    said: &mut Said,
    schema: &Schema,
    text: &str,
    tokens: &[Token],
    why: QueryError,
) -> Result<Option<usize>, AllocError> {
    match read(alloc, text) {
        Ok(query) => {
            let place = say_checked(alloc, said, schema, tokens, &query, why);
            drop(query);
            place
        }
        Err(ParseError::Query(QueryError::TooDeep)) => {
            Ok(Some(say_open(alloc, said, text, tokens)?))
        }
        Err(ParseError::Query(QueryError::NoMemory)) => Err(AllocError),
        Err(_) => Ok(None),
    }
}

/// Says why a text is not a query over a schema: where, if a place is known.
fn say_text(
    alloc: Global,
    said: &mut Said,
    schema: &Schema,
    text: &str,
    why: ParseError,
) -> Result<Option<usize>, AllocError> {
    let len = text.len();
    if len > MAX_QUERY_LEN {
        said.count("the query has ", len);
        said.count(" bytes; the limit is ", MAX_QUERY_LEN);
        return Ok(None);
    }
    match why {
        ParseError::Syntax { at } => {
            say_syntax(alloc, said, text, at)?;
            Ok(Some(at))
        }
        ParseError::NumberTooLarge => say_large(alloc, said, text),
        ParseError::Query(why) => {
            let tokens = tokens_before(alloc, text, len)?;
            let place = say_refused(alloc, said, schema, text, &tokens, why);
            drop(tokens);
            place
        }
    }
}

/// Says why a text is not a query over a schema: where, what was found, and what was expected. It says nothing if it finds no fault.
pub fn say_query(
    alloc: Global,
    schema: &Schema,
    text: &str,
    why: ParseError,
) -> Result<Option<Reason>, AllocError> {
    let mut said = Said::new(alloc);
    let place = say_text(alloc, &mut said, schema, text, why)?;
    Reason::of_any(alloc, said, text, place)
}
