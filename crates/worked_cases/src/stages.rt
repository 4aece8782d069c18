//! What the stages before declarations give, in one line.
use crate::case::Case;
use fx8::{OutOfMemory, Text8};
use mql_parse::parse;
use mql_preproc::{PreFault, Source, Sources, all_short, preprocess};
use mql_source::{MOST_TOKENS, MOST_UNITS};
use mql_tree::{Token, Tokens, Tree, lex, text_of_bytes};
use std::alloc::Global;

/// The sources that the files of a case are. Bytes that are no text make an empty one.
fn sources_of(alloc: Global, case: &Case) -> Result<Sources, OutOfMemory> {
    let mut sources = Sources::new(alloc);
    for held in &case.files {
        let text = match text_of_bytes(alloc, held.bytes.as_slice()) {
            Ok(text) => text,
            Err(_) => fx8::Text::new(alloc),
        };
        let name = Text8::from_slice(alloc, held.name.as_slice())?;
        sources.push(Source { name, text })?;
    }
    Ok(sources)
}

/// A token in one word or more: with `exact` every unit and kind of it, else as it is spelled.
fn shown(alloc: Global, token: &Token, exact: bool) -> Result<String, OutOfMemory> {
    if exact {
        exactly(alloc, token)
    } else {
        spelled(alloc, token)
    }
}

/// A token with its units and its kind.
fn exactly(alloc: Global, token: &Token) -> Result<String, OutOfMemory> {
    Ok(match token {
        Token::Name(name) => format!(in alloc; "name {:?};", name.as_slice())?,
        Token::Int { value, kind } => format!(in alloc; "{value} {kind:?};")?,
        Token::Double(number) => format!(in alloc; "double {};", number.units())?,
        Token::Str(units) => format!(in alloc; "str {:?};", units.as_slice())?,
        Token::Sign(sign) => format!(in alloc; "sign {sign:?};")?,
        Token::IncludeName { name, place } => {
            format!(in alloc; "file {:?} {place:?};", name.as_slice())?
        }
        Token::LineEnd => format!(in alloc; "end;")?,
    })
}

/// A token as it is spelled: numbers in decimal, a text in `'`.
fn spelled(alloc: Global, token: &Token) -> Result<String, OutOfMemory> {
    Ok(match token {
        Token::Name(name) => String::from_utf16_lossy(alloc, name.as_slice())?,
        Token::Int { value, .. } => format!(in alloc; "{value}")?,
        Token::Double(number) => format!(in alloc; "double {}", number.units())?,
        Token::Str(units) => {
            let units = String::from_utf16_lossy(alloc, units.as_slice())?;
            format!(in alloc; "'{units}'")?
        }
        Token::Sign(sign) => String::from_utf8_lossy(alloc, sign.spelling())?,
        Token::IncludeName { .. } => format!(in alloc; "file")?,
        Token::LineEnd => format!(in alloc; "end")?,
    })
}

/// Tokens in one line, with a blank behind each.
fn line_of(alloc: Global, tokens: &Tokens, exact: bool) -> Result<String, OutOfMemory> {
    let mut line = String::new(alloc);
    for pair in tokens.as_slice() {
        let one = shown(alloc, &pair.0, exact)?;
        line.push_str(one.as_str())?;
        line.push(' ')?;
    }
    Ok(line)
}

/// What preprocessing says of a case: the tokens; else the fault by its number, its file and its line, or the name of
/// the file that is needed. The word behind `preprocess` names the entry.
pub fn preprocessed(alloc: Global, case: &Case) -> Result<String, OutOfMemory> {
    let line = String::new(alloc);
    let sources = sources_of(alloc, case)?;
    let [_, entry] = case.words.as_slice() else {
        return Ok(line);
    };
    if !all_short(&sources) || sources.len() > 10_000 {
        return Ok(line);
    }
    let entry = Text8::from_slice(alloc, entry.as_bytes())?;
    match preprocess(alloc, &entry, &sources) {
        Ok(tokens) => line_of(alloc, &tokens, false),
        Err(fault) => line_of_fault(alloc, &fault),
    }
}

/// A fault of preprocessing by its number, its file and its line, or by the name of the file that is needed.
fn line_of_fault(alloc: Global, fault: &PreFault) -> Result<String, OutOfMemory> {
    if let PreFault::Need(name) = fault {
        let name = String::from_utf8_lossy(alloc, name.as_slice())?;
        return Ok(format!(in alloc; "need {name}")?);
    }
    match fault.span() {
        Some(span) => Ok(format!(in alloc; "{} at {}:{}", fault.number(), span.file, span.line)?),
        None => Ok(format!(in alloc; "{}", fault.number())?),
    }
}

/// The tokens of the first file of a case, or the fault of its text or of a token in words.
fn lexed(alloc: Global, case: &Case) -> Result<Result<Tokens, String>, OutOfMemory> {
    let Some(held) = case.files.first() else {
        return Ok(Ok(Tokens::new(alloc)));
    };
    let text = match text_of_bytes(alloc, held.bytes.as_slice()) {
        Ok(text) => text,
        Err(fault) => return Ok(Err(format!(in alloc; "{fault}")?)),
    };
    if text.len() > MOST_UNITS {
        return Ok(Ok(Tokens::new(alloc)));
    }
    match lex(alloc, 0, &text) {
        Ok(tokens) => Ok(Ok(tokens)),
        Err(fault) => Ok(Err(format!(in alloc; "{fault}")?)),
    }
}

/// The tokens of the one file of a case, or the fault in words.
pub fn tokens_of(alloc: Global, case: &Case) -> Result<String, OutOfMemory> {
    match lexed(alloc, case)? {
        Ok(tokens) => line_of(alloc, &tokens, true),
        Err(fault) => Ok(fault),
    }
}

/// What the parser says of the one file of a case: the tree, or the fault with its token; the fault of a text or of a
/// token in words. Of a tree only `Ok` is told where it is not to be `shown`.
pub fn parsed(alloc: Global, case: &Case, shown: bool) -> Result<String, OutOfMemory> {
    let tokens = match lexed(alloc, case)? {
        Ok(tokens) => tokens,
        Err(fault) => return Ok(fault),
    };
    let mut line = String::new(alloc);
    if tokens.len() > MOST_TOKENS {
        return Ok(line);
    }
    match parse(alloc, &tokens) {
        Ok(tree) if shown => {
            show(alloc, &tokens, &tree, &mut line)?;
            Ok(line)
        }
        Ok(_) => Ok(String::from_str(alloc, "Ok")?),
        Err(fault) => Ok(format!(in alloc; "{fault:?}")?),
    }
}

/// Adds parts to a line, parted by blanks.
#[cycle(show)]
fn show_all(
    alloc: Global,
    tokens: &Tokens,
    parts: &[Tree],
    line: &mut String,
) -> Result<(), OutOfMemory> {
    let mut first = true;
    for part in parts {
        if !first {
            line.push_str(" ")?;
        }
        first = false;
        show(alloc, tokens, part, line)?;
    }
    Ok(())
}

/// Adds a tree to a line: a token as it is spelled, a node by its form and its parts.
#[cycle(show)]
fn show(alloc: Global, tokens: &Tokens, tree: &Tree, line: &mut String) -> Result<(), OutOfMemory> {
    match tree {
        Tree::Leaf { token } => {
            if let Some(pair) = tokens.at(u64::from(*token)) {
                let text = spelled(alloc, &pair.0)?;
                line.push_str(text.as_str())?;
            }
        }
        Tree::Node { form, parts } => {
            let name = format!(in alloc; "{form:?}[")?;
            line.push_str(name.as_str())?;
            show_all(alloc, tokens, parts.as_slice(), line)?;
            line.push_str("]")?;
        }
    }
    Ok(())
}
