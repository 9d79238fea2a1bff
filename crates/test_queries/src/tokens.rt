use query_tokens::{Fault, Token, TokenError, Word, tokens};
use std::alloc::AllocError;
use std::test::*;
use test_cases::{expect, expect_lines};

/// A token as short text, behind its place.
fn shown(rt: HostRuntime, token: &Token) -> Result<String, AllocError> {
    let at = token.at;
    match &token.word {
        Word::Name(name) => format!(in rt.alloc(); "{at}:{name} "),
        Word::Integer(number) => format!(in rt.alloc(); "{at}:{number} "),
        Word::Text(content) => format!(in rt.alloc(); "{at}:'{content}' "),
        Word::Symbol(symbol) => format!(in rt.alloc(); "{at}:{symbol:?} "),
    }
}

/// Tokens as short text.
fn all_shown(rt: HostRuntime, tokens: &[Token]) -> Result<String, Fail> {
    let mut all = String::new(rt.alloc());
    for token in tokens {
        all.push_str(&shown(rt, token)?)?;
    }
    Ok(all)
}

/// The tokens of a text, or its first fault.
fn told(rt: HostRuntime, text: &str) -> Result<String, Fail> {
    match tokens(rt.alloc(), text) {
        Ok(tokens) => all_shown(rt, &tokens),
        Err(error) => Ok(format!(in rt.alloc(); "{error:?}")?),
    }
}

/// The same of a text in which `/` stands for the end of a line.
fn told_of_lines(rt: HostRuntime, text: &str) -> Result<String, Fail> {
    let text = text.replace(rt.alloc(), "/", "\n")?;
    let told = told(rt, &text)?;
    Ok(told.trim_end().replace(rt.alloc(), "\n", "/")?)
}

/// Texts, and their tokens, each behind its place, or the first of their faults. The longest name has 63 bytes.
const TEXTS: &str = "\
a\tb/c\x0bd\x0ce\rf g => 0:a 2:b 4:c 6:d 8:e 10:f 12:g
 => 
 \t/\x0b\x0c\r => 
SELECT c_1,\t-12 <=5<>'it''s é'!=x-9; => \
0:select 7:c_1 10:Comma 12:-12 16:AtMost 18:5 19:Unequal 21:'it's é' 31:Unequal 33:x 34:-9 36:Semicolon
(),*;=<>!=< <=> >= => \
0:Open 1:Close 2:Comma 3:Star 4:Semicolon 5:Equal 6:Unequal 8:Unequal 10:Less 12:AtMost 14:More 16:AtLeast
<=><>=<< => 0:AtMost 2:More 3:Unequal 5:Equal 6:Less 7:Less
_Az09 Z => 0:_az09 6:z
n23456789_123456789_123456789_123456789_123456789_123456789_123 => \
0:n23456789_123456789_123456789_123456789_123456789_123456789_123
'' => 0:''
'''' 'a''b' => 0:''' 5:'a'b'
'\\' 'A/b' => 0:'\\' 4:'A/b'
007 -0 1-2 => 0:7 4:0 7:1 8:-2
9223372036854775807 -9223372036854775808 => 0:9223372036854775807 20:-9223372036854775808
a ? => Fault(Syntax { at: 2 })
é => Fault(Syntax { at: 0 })
a\x00 => Fault(Syntax { at: 1 })
\"a\" => Fault(Syntax { at: 0 })
a 'b => Fault(Syntax { at: 2 })
a 'b'' => Fault(Syntax { at: 2 })
a 'b\x00c' ? => Fault(Syntax { at: 2 })
n23456789_123456789_123456789_123456789_123456789_123456789_1234 => Fault(Syntax { at: 0 })
1 12x => Fault(Syntax { at: 2 })
1_0 => Fault(Syntax { at: 0 })
a -12x => Fault(Syntax { at: 2 })
99999999999999999999999999x => Fault(Syntax { at: 0 })
9223372036854775808 => Fault(NumberTooLarge)
-9223372036854775809 => Fault(NumberTooLarge)
99999999999999999999999999 => Fault(NumberTooLarge)
a - 1 => Fault(Syntax { at: 2 })
1 --1 => Fault(Syntax { at: 2 })
a!b => Fault(Syntax { at: 1 })
! = => Fault(Syntax { at: 0 })
9223372036854775808 ? => Fault(NumberTooLarge)
? 9223372036854775808 => Fault(Syntax { at: 0 })
? 'a => Fault(Syntax { at: 0 })";

#[test]
fn texts_have_tokens_or_a_first_fault(rt: HostRuntime) -> Result<(), Fail> {
    expect_lines(rt, TEXTS, told_of_lines)
}

/// What is said of all errors.
fn all_messages(rt: HostRuntime) -> Result<String, Fail> {
    let memory = TokenError::NoMemory;
    let syntax = TokenError::Fault(Fault::Syntax { at: 7 });
    let number = TokenError::Fault(Fault::NumberTooLarge);
    Ok(format!(in rt.alloc(); "{memory}, {syntax}, {number}")?)
}

#[test]
fn messages(rt: HostRuntime) -> Result<(), Fail> {
    expect(
        all_messages(rt),
        "out of memory, syntax error at byte 7, integer out of the range of 64 bits",
    )
}
