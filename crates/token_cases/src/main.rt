//! Reads files of cases, and prints for each case what its source is made of, or its fault.
//!
//! The arguments are pairs of a form and a file. `tokens FILE` prints each token's kind, its text and its place; `layout FILE` the
//! tokens' texts, with `{`, `;` and `}` where layout puts them; `terminals FILE` the kinds of the terminals, with what each name,
//! number and literal stands for, in characters by their codes. A case begins with a line `== NAME` and its source goes to the next
//! such line; the last line feed before that line, or before the end, belongs to no source. Sources and answers are worked by hand
//! from the language's rules.
#![tactic(auto)]

use anyhow::{Context, Result, bail};
use campl_lex::{LexFault, Token, TokenKind, end_of, layout, lex};
use campl_terminals::{Terminal, terminals_of};
use campl_text::{FileShelf, Text, read_text};
use std::alloc::Global;
use std::env;
use std::io::Write;
use std::rt::{Env, Files};

const FILE_LIMIT: u64 = 1_048_576;

// What is printed of a source.
#[derive(Clone, Copy)]
enum Form {
    Tokens,
    Layout,
    Terminals,
}

fn form_of(argument: &str) -> Result<Form> {
    match argument {
        "tokens" => Ok(Form::Tokens),
        "layout" => Ok(Form::Layout),
        "terminals" => Ok(Form::Terminals),
        _ => bail!("the forms are tokens, layout and terminals"),
    }
}

// The text of a file.
fn read_file(rt: &impl Files, alloc: Global, file: &str) -> Result<Text> {
    let mut shelf = FileShelf::new(rt, alloc);
    match read_text(alloc, &mut shelf, file, FILE_LIMIT) {
        Ok(text) => Ok(text),
        Err(_) => bail!("the file is no text within the limit"),
    }
}

// The source of a case.
fn source_of(alloc: Global, case: &str) -> Result<Text> {
    if case.len() as u64 > FILE_LIMIT {
        bail!("a source is too long");
    }
    Ok(Text::of(alloc, case)?)
}

fn print_fault(fault: LexFault, out: &mut impl Write) -> Result<()> {
    let (number, place) = match fault {
        LexFault::BadCharacter { place } => (1, place),
        LexFault::OpenString { place } => (2, place),
        LexFault::BadEscape { place } => (3, place),
        LexFault::NumberTooLarge { place } => (4, place),
        LexFault::NameTooLong { place } => (5, place),
        LexFault::Tab { place } => (6, place),
        LexFault::BadColumn { place } => (7, place),
        LexFault::TextTooLong { place } => (8, place),
        LexFault::OutOfMemory => bail!("no memory was left"),
    };
    write!(out, " E0{} at {}:{}", number, place.line, place.column)?;
    Ok(())
}

// A token's text in its source.
fn text_of(source: &str, token: Token) -> &str {
    source
        .get(token.start as usize..token.stop as usize)
        .unwrap_or("?")
}

fn print_tokens(source: &str, tokens: &[Token], out: &mut impl Write) -> Result<()> {
    for token in tokens {
        write!(
            out,
            " {:?} {}@{}:{}",
            token.kind,
            text_of(source, *token),
            token.place.line,
            token.place.column
        )?;
    }
    Ok(())
}

fn print_layout(source: &str, tokens: &[Token], out: &mut impl Write) -> Result<()> {
    for token in tokens {
        let sign = match token.kind {
            TokenKind::LeftBrace => '{',
            TokenKind::RightBrace => '}',
            TokenKind::Semicolon => ';',
            _ => {
                write!(out, " {}", text_of(source, *token))?;
                continue;
            }
        };
        write!(out, " {}{}:{}", sign, token.place.line, token.place.column)?;
    }
    Ok(())
}

// A terminal's kind, and what it stands for.
fn print_terminal(alloc: Global, terminal: &Terminal, out: &mut impl Write) -> Result<()> {
    write!(out, " {:?}", terminal.kind())?;
    match terminal.kind() {
        TokenKind::Lower => write!(out, " {}", terminal.name(alloc)?)?,
        TokenKind::Upper => {
            let ident = terminal.ident(alloc)?;
            write!(
                out,
                " {}@{}:{}",
                ident.name, ident.place.line, ident.place.column
            )?;
        }
        TokenKind::Number => write!(out, " {}", terminal.number())?,
        TokenKind::Character => write!(out, " {}", terminal.character() as u32)?,
        TokenKind::Text => {
            for letter in terminal.text(alloc)?.as_slice() {
                write!(out, " {}", *letter as u32)?;
            }
        }
        _ => {}
    }
    Ok(())
}

fn print_terminals(alloc: Global, terminals: &[Terminal], out: &mut impl Write) -> Result<()> {
    for terminal in terminals {
        print_terminal(alloc, terminal, out)?;
    }
    Ok(())
}

// Prints a source in a form.
#[tactic(auto, using(campl_terminals::proofs::Cuts::laid_cut))]
fn print_source(alloc: Global, form: Form, source: &Text, out: &mut impl Write) -> Result<()> {
    let text = source.as_str();
    let tokens = match lex(alloc, source) {
        Ok(tokens) => tokens,
        Err(fault) => return print_fault(fault, out),
    };
    if let Form::Tokens = form {
        return print_tokens(text, &tokens, out);
    }
    let laid = match layout(alloc, source, &tokens, end_of(source)) {
        Ok(laid) => laid,
        Err(fault) => return print_fault(fault, out),
    };
    if let Form::Layout = form {
        return print_layout(text, &laid, out);
    }
    print_terminals(alloc, &terminals_of(alloc, source, &laid)?, out)
}

// Prints a line for each case of a text.
fn print_cases(alloc: Global, form: Form, text: &Text, out: &mut impl Write) -> Result<()> {
    let content = text.as_str().strip_prefix("== ").context("no case")?;
    let content = content
        .strip_suffix('\n')
        .context("the last line has no end")?;
    for case in content.split("\n== ") {
        let (name, source) = case.split_once('\n').context("a case has no source")?;
        write!(out, "{name}:")?;
        print_source(alloc, form, &source_of(alloc, source)?, out)?;
        writeln!(out)?;
    }
    Ok(())
}

// The arguments after the program's name.
fn arguments(rt: &(impl Env + AllocGlobal)) -> Result<Vec<String>> {
    let mut arguments = Vec::new(rt.alloc());
    for argument in env::args(rt)?.skip(1) {
        arguments.push(argument)?;
    }
    Ok(arguments)
}

fn main(rt: HostRuntime) -> Result<()> {
    let arguments = arguments(&rt)?;
    let mut out = rt.stdout();
    for pair in arguments.chunks(2) {
        let [form, file] = pair else {
            bail!("give a file behind each form");
        };
        let form = form_of(form.as_str())?;
        let text = read_file(&rt, rt.alloc(), file.as_str())?;
        print_cases(rt.alloc(), form, &text, &mut out)?;
    }
    Ok(())
}
