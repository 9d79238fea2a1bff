//! The parts of a query that was read, each with the token where it stands: a way through the query and beside its tokens.

use crate::clash::{Asker, Clash};
use agg_protocol::{AggKind, Argument};
use having_filter::{AggCall, Cond, IsTest, Item, RawQuery};
use packed_rows::{Schema, ValueKind};
use query_tokens::{Symbol, Token, Word};
use std::alloc::{AllocError, Global};

/// Where a column is named.
#[derive(Clone, Copy, PartialEq, Eq)]
pub(crate) enum Role {
    /// As an item.
    Outside,
    /// In HAVING, outside of calls.
    Having,
    /// In WHERE or a FILTER.
    Condition,
    /// As an argument.
    Argument,
    /// In GROUP BY.
    Key,
}

/// A column that is named, where its name stands, and what as.
#[derive(Drop)]
pub(crate) struct Mention<'q> {
    pub(crate) name: &'q str,
    pub(crate) at: usize,
    pub(crate) role: Role,
}

/// An operand, or what operands make.
#[derive(Clone, Copy)]
struct Operand {
    /// Its kind, where it has one: null has every.
    kind: Option<ValueKind>,
    /// How deep it is.
    depth: usize,
    /// Where it begins.
    at: usize,
    /// Where it is so deep.
    tip: usize,
}

/// What was met on the way, and how far it went.
#[derive(Drop)]
pub(crate) struct Tour<'q> {
    schema: &'q Schema,
    tokens: &'q [Token],
    /// How many tokens are behind.
    behind: usize,
    pub(crate) mentions: Vec<Mention<'q>>,
    /// The calls among the items and in HAVING.
    pub(crate) calls: Vec<&'q AggCall<String>>,
    /// Where the terms of ORDER BY begin.
    pub(crate) terms: Vec<usize>,
    /// The first aggregate in WHERE or a FILTER, and where it begins.
    pub(crate) misplaced: Option<(AggKind, usize)>,
    /// The first kinds that don't fit, and where that is.
    pub(crate) clash: Option<(Clash, usize)>,
    /// How deep the deepest condition is, and where it is.
    pub(crate) deepest: (usize, usize),
    /// Whether memory was wanting on the way.
    is_cut: bool,
}

/// Whether a token is a symbol.
fn is_symbol(token: &Token, symbol: Symbol) -> bool {
    match &token.word {
        Word::Symbol(found) => *found == symbol,
        _ => false,
    }
}

/// Whether a token is a word, in capitals or not.
fn is_word(token: &Token, word: &str) -> bool {
    match &token.word {
        Word::Name(found) => found.eq_ignore_ascii_case(word),
        _ => false,
    }
}

/// How deep a condition is over two operands, and where the second of these begins.
fn above(left: Operand, right: Operand) -> (usize, usize) {
    (left.depth.max(right.depth).saturating_add(1), right.at)
}

impl<'q> Tour<'q> {
    /// Nothing was met yet.
    fn new(alloc: Global, schema: &'q Schema, tokens: &'q [Token]) -> Tour<'q> {
        Tour {
            schema,
            tokens,
            behind: 0,
            mentions: Vec::new(alloc),
            calls: Vec::new(alloc),
            terms: Vec::new(alloc),
            misplaced: None,
            clash: None,
            deepest: (0, 0),
            is_cut: false,
        }
    }

    /// Goes through a query that these tokens say.
    pub(crate) fn of(
        alloc: Global,
        schema: &'q Schema,
        tokens: &'q [Token],
        query: &'q RawQuery,
    ) -> Result<Tour<'q>, AllocError> {
        let mut tour = Tour::new(alloc, schema, tokens);
        tour.items(&query.items);
        tour.clause(&query.condition, Asker::Where, Role::Condition);
        tour.keys(&query.keys);
        tour.clause(&query.having, Asker::Having, Role::Having);
        tour.order(query.order.len());
        if tour.is_cut {
            Err(AllocError)
        } else {
            Ok(tour)
        }
    }

    /// Where the next token stands in the text.
    fn at(&self) -> usize {
        match self.tokens.get(self.behind) {
            Some(token) => token.at,
            None => 0,
        }
    }

    /// Goes on behind so many tokens.
    fn pass(&mut self, many: usize) {
        self.behind = self.behind.saturating_add(many);
    }

    /// Goes on behind all symbols that stand next and are this one.
    fn pass_all(&mut self, symbol: Symbol) {
        let left = self.tokens.get(self.behind..).unwrap_or_default();
        let many = left
            .iter()
            .take_while(|token| is_symbol(*token, symbol))
            .count();
        self.pass(many);
    }

    /// Goes on behind the next comma.
    fn pass_comma(&mut self) {
        let left = self.tokens.get(self.behind..).unwrap_or_default();
        let many = left
            .iter()
            .take_while(|token| !is_symbol(*token, Symbol::Comma))
            .count();
        self.pass(many.saturating_add(1));
    }

    /// Goes on behind the next token that is this word.
    fn pass_word(&mut self, word: &str) {
        let left = self.tokens.get(self.behind..).unwrap_or_default();
        let many = left
            .iter()
            .take_while(|token| !is_word(*token, word))
            .count();
        self.pass(many.saturating_add(1));
    }

    /// Keeps the first clash.
    fn clashes(&mut self, clash: Clash, at: usize) {
        if self.clash.is_none() {
            self.clash = Some((clash, at));
        }
    }

    /// Asks for a truth value.
    fn asks(&mut self, asker: Asker, operand: Operand) {
        if let Some(kind) = operand.kind {
            if kind != ValueKind::Boolean {
                self.clashes(Clash::Asked(asker, kind), operand.at);
            }
        }
    }

    /// The kind of a column.
    fn kind_of(&self, name: &str) -> Option<ValueKind> {
        let column = self.schema.place(name)?;
        self.schema.kinds().get(column).copied()
    }

    /// Goes past the name of a column: its kind.
    fn column(&mut self, name: &'q str, role: Role) -> Option<ValueKind> {
        let at = self.at();
        if self.mentions.push(Mention { name, at, role }).is_err() {
            self.is_cut = true;
        }
        self.pass(1);
        self.kind_of(name)
    }

    /// Goes past what stands in a call's parentheses.
    fn argument(&mut self, call: &'q AggCall<String>) {
        let Some(name) = &call.column else {
            self.pass(1);
            return;
        };
        let at = self.at();
        let found = self.column(name.as_str(), Role::Argument);
        if let (Argument::ValuesOf(wanted), Some(kind)) = (call.kind.argument(), found) {
            if wanted != kind {
                self.clashes(Clash::Argument(call.kind, kind), at);
            }
        }
    }

    /// Goes through a call: its kind.
    #[cycle(tour)]
    fn call(&mut self, call: &'q AggCall<String>, role: Role) -> Option<ValueKind> {
        let at = self.at();
        if role != Role::Condition {
            if self.calls.push(call).is_err() {
                self.is_cut = true;
            }
        } else if self.misplaced.is_none() {
            self.misplaced = Some((call.kind, at));
        }
        self.pass(2);
        self.argument(call);
        if let Some(filter) = &call.filter {
            // Behind `) FILTER (WHERE`.
            self.pass(4);
            let operand = self.condition(filter, Role::Condition);
            self.asks(Asker::Filter, operand);
        }
        Some(call.kind.result())
    }

    /// Goes through a condition, from its first token or parenthesis on.
    #[cycle(tour)]
    fn condition(&mut self, condition: &'q Cond<String>, role: Role) -> Operand {
        let at = self.at();
        let (depth, tip) = match condition {
            Cond::Not(operand) => self.not(operand, role),
            Cond::And(left, right) => {
                let left = self.condition(left, role);
                self.joins(Asker::And, left);
                let right = self.condition(right, role);
                self.asks(Asker::And, right);
                above(left, right)
            }
            Cond::Or(left, right) => {
                let left = self.condition(left, role);
                self.joins(Asker::Or, left);
                let right = self.condition(right, role);
                self.asks(Asker::Or, right);
                above(left, right)
            }
            Cond::Compare(_, left, right) => {
                let left = self.condition(left, role);
                let sign = self.operator();
                let right = self.condition(right, role);
                self.compares(left, right, sign);
                above(left, right)
            }
            Cond::Is {
                test,
                negated,
                operand,
            } => self.tested(*test, *negated, operand, role),
            _ => return self.lone(condition, role),
        };
        self.sound(depth, tip);
        let kind = Some(ValueKind::Boolean);
        Operand {
            kind,
            depth,
            at,
            tip,
        }
    }

    /// Goes through a column, a call or a literal.
    #[cycle(tour)]
    fn lone(&mut self, leaf: &'q Cond<String>, role: Role) -> Operand {
        let at = self.at();
        let kind = self.leaf(leaf, role);
        self.sound(1, at);
        Operand {
            kind,
            depth: 1,
            at,
            tip: at,
        }
    }

    /// Keeps how deep a condition is.
    fn sound(&mut self, depth: usize, at: usize) {
        if depth > self.deepest.0 {
            self.deepest = (depth, at);
        }
    }

    /// Goes through a column, a call or a literal: its kind.
    #[cycle(tour)]
    fn leaf(&mut self, leaf: &'q Cond<String>, role: Role) -> Option<ValueKind> {
        self.pass_all(Symbol::Open);
        let kind = match leaf {
            Cond::Column(name) => return self.column(name.as_str(), role),
            Cond::Call(call) => return self.call(call, role),
            Cond::Bigint(_) => Some(ValueKind::Bigint),
            Cond::Text(_) => Some(ValueKind::Text),
            Cond::Null => None,
            _ => Some(ValueKind::Boolean),
        };
        self.pass(1);
        kind
    }

    /// Goes through a NOT: how deep it is, and where.
    #[cycle(tour)]
    fn not(&mut self, operand: &'q Cond<String>, role: Role) -> (usize, usize) {
        self.pass_all(Symbol::Open);
        self.pass(1);
        let operand = self.condition(operand, role);
        self.asks(Asker::Not, operand);
        (operand.depth.saturating_add(1), operand.tip)
    }

    /// Passes an operator of two operands, behind the left one: where it stands.
    fn operator(&mut self) -> usize {
        self.pass_all(Symbol::Close);
        let at = self.at();
        self.pass(1);
        at
    }

    /// Passes an AND or an OR, which asks its left operand for a truth value.
    fn joins(&mut self, asker: Asker, left: Operand) {
        self.asks(asker, left);
        let _at = self.operator();
    }

    /// Tells operands of a comparison that are of two kinds.
    fn compares(&mut self, left: Operand, right: Operand, at: usize) {
        if let (Some(one), Some(other)) = (left.kind, right.kind) {
            if one != other {
                self.clashes(Clash::Compared(one, other), at);
            }
        }
    }

    /// Goes through an IS test: how deep it is, and where. One for null asks for no truth value.
    #[cycle(tour)]
    fn tested(
        &mut self,
        test: IsTest,
        negated: bool,
        operand: &'q Cond<String>,
        role: Role,
    ) -> (usize, usize) {
        let operand = self.condition(operand, role);
        if test != IsTest::IsNull {
            self.asks(Asker::Is, operand);
        }
        self.pass_all(Symbol::Close);
        self.pass(if negated { 2 } else { 1 });
        let at = self.at();
        self.pass(1);
        (operand.depth.saturating_add(1), at)
    }

    /// Goes through the items, behind SELECT.
    fn items(&mut self, items: &'q [(Item<String>, Option<String>)]) {
        self.pass(1);
        for (place, (item, _)) in items.iter().enumerate() {
            if place > 0 {
                self.pass_comma();
            }
            let _kind = match item {
                Item::Column(name) => self.column(name.as_str(), Role::Outside),
                Item::Call(call) => self.call(call, Role::Outside),
            };
        }
    }

    /// Goes through WHERE or HAVING, if it is there.
    fn clause(&mut self, clause: &'q Option<Cond<String>>, asker: Asker, role: Role) {
        if let Some(condition) = clause {
            self.pass_word(asker.words());
            let operand = self.condition(condition, role);
            self.asks(asker, operand);
        }
    }

    /// Goes through GROUP BY, if it is there.
    fn keys(&mut self, keys: &'q [String]) {
        for (place, key) in keys.iter().enumerate() {
            if place > 0 {
                self.pass_comma();
            } else {
                self.pass_word("group");
                self.pass(1);
            }
            let _kind = self.column(key.as_str(), Role::Key);
        }
    }

    /// Goes through so many terms of ORDER BY.
    fn order(&mut self, many: usize) {
        for place in 0..many {
            if place > 0 {
                self.pass_comma();
            } else {
                self.pass_word("order");
                self.pass(1);
            }
            let at = self.at();
            if self.terms.push(at).is_err() {
                self.is_cut = true;
            }
        }
    }
}
