//! Tables of cases, which tests go through.

ghost use Rattle.std.specs.Prelude.{◌≡◌, ◌++◌, IfOk};

use std::alloc::{AllocError, Global};
use std::fmt::Debug;
use std::test::*;

/// What stands in front of a mark and behind it.
pub fn halves<'t>(text: &'t str, mark: &str) -> Result<(&'t str, &'t str), Fail>
    ensures { IfOk result (λ halves. text.now ≡ halves.0.now ++ mark.now ++ halves.1.now) }
{
    Ok(text.split_once(mark).ok_or("no such mark")?)
}

/// What stands in front of a mark and behind it. Where there is no mark, the whole text stands in front of it.
pub fn cut<'t>(text: &'t str, mark: &str) -> (&'t str, &'t str) {
    match text.split_once(mark) {
        Some(halves) => halves,
        None => (text, ""),
    }
}

/// Fails, with what is told, where that is not what is wanted.
pub fn expect(told: Result<String, Fail>, wanted: &str) -> Result<(), Fail> {
    let told = told?;
    if told.as_str() == wanted {
        return Ok(());
    }
    Err(Fail::new(told))
}

/// The same of what a library may refuse by an error of its own.
pub fn expect_told<E: Debug + Drop>(told: Result<String, E>, wanted: &str) -> Result<(), Fail> {
    let told = told?;
    expect(Ok(told), wanted)
}

/// What calls answered, one behind the other.
#[derive(Drop)]
pub struct Answered {
    alloc: Global,
    text: String,
}

impl Answered {
    /// Nothing is told.
    pub fn new(alloc: Global) -> Answered {
        Answered {
            alloc,
            text: String::new(alloc),
        }
    }

    /// Tells what a call answered, behind what was told before.
    pub fn tell<T: Debug + Copy>(&mut self, answer: T) -> Result<(), AllocError> {
        let told = format!(in self.alloc; "{answer:?} ")?;
        self.text.push_str(&told)
    }

    /// All that was told.
    pub fn into_text(self) -> String {
        self.text
    }
}

/// Fails at the first line of a table whose case, in front of ` => `, has another outcome than the line tells. The failure has the line and
/// what is told.
pub fn expect_lines<'t, F: Fn(HostRuntime, &'t str) -> Result<String, Fail>>(
    rt: HostRuntime,
    table: &'t str,
    outcome: F,
) -> Result<(), Fail>
    requires { F.IsAlwaysCallable outcome }
{
    for line in table.lines() {
        let (case, wanted) = halves(line, " => ")?;
        let told = outcome(rt, case)?;
        if told.as_str() != wanted {
            return Err(Fail::new(format_args!("{line}: {told}")));
        }
    }
    Ok(())
}

/// The same of outcomes that a library may refuse by an error of its own.
pub fn expect_told_lines<'t, E: Debug + Drop, F: Fn(Global, &'t str) -> Result<String, E>>(
    rt: HostRuntime,
    table: &'t str,
    outcome: F,
) -> Result<(), Fail>
    requires { F.IsAlwaysCallable outcome }
{
    expect_lines(rt, table, |rt, case| Ok(outcome(rt.alloc(), case)?))
}
