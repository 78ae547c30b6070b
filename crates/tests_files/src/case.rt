//! Files of cases. A line `case NAME` or `base NAME` begins a block, an indented line `KEY WORD` an entry of it, and each line that
//! begins with a bar is a line of the entry's text, without the bar. A line that begins with a colon is text without a line
//! end, one with an equals sign is bytes in hex, one with a star is a count and a text that is repeated so often, and one
//! with an at sign is a count and a text that is numbered.
//! Other lines are empty or begin with `#`.
use crate::compared::{Comparison, is_read};
use crate::told::UnreadLine;
use std::alloc::{AllocError, Global};

/// A key, what is behind it, and a text.
#[derive(Drop)]
pub struct CaseEntry {
    /// The line that it begins in, counted from 1.
    pub line: u64,
    key: String,
    word: String,
    pub text: Vec<u8>,
}

/// A case, or what several cases begin with.
#[derive(Drop)]
pub struct Block {
    pub line: u64,
    pub is_base: bool,
    name: String,
    entries: Vec<CaseEntry>,
}

/// A case with the entries of its base, which are before its own.
#[derive(Clone, Copy)]
pub struct Case<'c> {
    /// The line that it begins in.
    pub line: u64,
    pub name: &'c str,
    pub base: &'c [CaseEntry],
    pub own: &'c [CaseEntry],
}

impl CaseEntry {
    pub fn key(&self) -> &str {
        self.key.as_str()
    }

    /// What is behind the key.
    pub fn word(&self) -> &str {
        self.word.as_str()
    }

    /// The text below it.
    pub fn below(&self) -> &str {
        str::from_utf8(&self.text).unwrap_or("no UTF-8")
    }

    /// What it wants, or is given: the word behind its key, or else the text below it.
    pub fn wanted(&self) -> &str {
        if self.word().is_empty() {
            self.below()
        } else {
            self.word()
        }
    }

    /// Whether its key is for each room the same: the base, and a value that is in texts by its name.
    pub fn is_shared(&self) -> bool {
        self.key() == "with" || self.key() == "let"
    }
}

fn entry_among<'e>(entries: &'e [CaseEntry], key: &str) -> Option<&'e CaseEntry> {
    entries.iter().find(|entry| entry.key() == key)
}

impl<'c> Case<'c> {
    /// What a row has for a case: no entries.
    pub fn of_row() -> Case<'static> {
        Case {
            line: 0,
            name: "",
            base: &[],
            own: &[],
        }
    }

    /// The first entry of a key: of the case, or else of its base.
    pub fn entry(&self, key: &str) -> Option<&'c CaseEntry> {
        entry_among(self.own, key).or(entry_among(self.base, key))
    }

    /// Whether the case says something by a key itself.
    pub fn has_own(&self, key: &str) -> bool {
        entry_among(self.own, key).is_some()
    }

    /// What is behind a key, or else this.
    pub fn word_or(&self, key: &str, or: &'static str) -> &'c str {
        match self.entry(key) {
            Some(entry) => entry.word(),
            None => or,
        }
    }

    /// What is behind a key, or nothing.
    pub fn word(&self, key: &str) -> &'c str {
        self.word_or(key, "")
    }

    /// The word behind a key, or the lines below it.
    pub fn given(&self, key: &str) -> &'c str {
        match self.entry(key) {
            Some(entry) => entry.wanted(),
            None => "",
        }
    }
}

fn push<T: Drop>(items: &mut Vec<T>, item: T) -> Result<(), UnreadLine> {
    match items.push(item) {
        Ok(()) => Ok(()),
        Err(_) => Err(UnreadLine::Memory),
    }
}

/// Appends the bytes that are written in hex.
fn put_hex(text: &mut Vec<u8>, line: &str) -> Result<(), UnreadLine> {
    for word in line.split_whitespace() {
        match u8::from_str_radix(word, 16) {
            Ok(byte) => push(text, byte)?,
            Err(_) => return Err(UnreadLine::Line("a byte that is no number")),
        }
    }
    Ok(())
}

fn put_number(alloc: Global, text: &mut Vec<u8>, number: u32) -> Result<(), AllocError> {
    let digits = format!(in alloc; "{number}")?;
    text.extend_from_slice(digits.as_bytes())
}

/// Appends a text with a number for `#`, the next one for `^`, a line end for a bar, and a CR for `~`.
fn put_numbered(
    alloc: Global,
    text: &mut Vec<u8>,
    number: u32,
    piece: &str,
) -> Result<(), UnreadLine> {
    for byte in piece.as_bytes() {
        match *byte {
            b'#' => put_number(alloc, text, number)?,
            b'^' => put_number(alloc, text, number.saturating_add(1))?,
            b'|' => push(text, b'\n')?,
            b'~' => push(text, b'\r')?,
            byte => push(text, byte)?,
        }
    }
    Ok(())
}

/// Appends a text so often as the number before it says, as it is or numbered, from 0.
fn put_counted(
    alloc: Global,
    text: &mut Vec<u8>,
    line: &str,
    is_numbered: bool,
) -> Result<(), UnreadLine> {
    let (count, piece) = line.trim().split_once(' ').unwrap_or((line, ""));
    let Ok(count) = count.parse::<u32>() else {
        return Err(UnreadLine::Line("a count that is no number"));
    };
    for number in 0..count {
        if is_numbered {
            put_numbered(alloc, text, number, piece)?;
        } else {
            text.extend_from_slice(piece.as_bytes())?;
        }
    }
    Ok(())
}

/// Appends a line of an entry's text.
fn put_line(alloc: Global, text: &mut Vec<u8>, line: &str) -> Result<(), UnreadLine> {
    let rest = line.get(1..).unwrap_or("");
    match line.as_bytes().first().copied() {
        Some(b'|') => {
            text.extend_from_slice(rest.as_bytes())?;
            push(text, b'\n')?;
        }
        Some(b':') => text.extend_from_slice(rest.as_bytes())?,
        Some(b'=') => put_hex(text, rest)?,
        Some(b'@') => put_counted(alloc, text, rest, true)?,
        Some(b'*') => put_counted(alloc, text, rest, false)?,
        _ => return Err(UnreadLine::Line("a line of no known kind")),
    }
    Ok(())
}

fn put_entry(
    alloc: Global,
    entries: &mut Vec<CaseEntry>,
    line: u64,
    text: &str,
) -> Result<(), UnreadLine> {
    let text = text.trim();
    let (key, word) = text.split_once(' ').unwrap_or((text, ""));
    let key = String::from_str(alloc, key)?;
    let Ok(word) = String::from_str(alloc, word.trim()) else {
        return Err(UnreadLine::Memory);
    };
    let text = Vec::new(alloc);
    let entry = CaseEntry {
        line,
        key,
        word,
        text,
    };
    push(entries, entry)
}

/// Takes a line that begins no block: an entry, or a line of the last one's text.
fn put(
    alloc: Global,
    entries: &mut Vec<CaseEntry>,
    line: u64,
    text: &str,
) -> Result<(), UnreadLine> {
    if text.starts_with(' ') {
        return put_entry(alloc, entries, line, text);
    }
    match entries.last_mut() {
        Some(entry) => put_line(alloc, &mut entry.text, text),
        None => Err(UnreadLine::Line("a line before the first key")),
    }
}

/// Whether a line begins a base or a case, and its name.
fn beginning(line: &str) -> Option<(bool, &str)> {
    let (word, name) = line.split_once(' ').unwrap_or((line, ""));
    match word {
        "case" => Some((false, name)),
        "base" => Some((!name.is_empty(), name)),
        _ => None,
    }
}

fn add_line(
    alloc: Global,
    blocks: &mut Vec<Block>,
    line: u64,
    text: &str,
) -> Result<(), UnreadLine> {
    if let Some((is_base, name)) = beginning(text) {
        let name = String::from_str(alloc, name.trim())?;
        let entries = Vec::new(alloc);
        let block = Block {
            line,
            is_base,
            name,
            entries,
        };
        return push(blocks, block);
    }
    match blocks.last_mut() {
        Some(block) => put(alloc, &mut block.entries, line, text),
        None => Err(UnreadLine::Line("a line before the first case")),
    }
}

/// The blocks of a file's text. Lines that can't be read are reported and passed over.
pub fn blocks_of(alloc: Global, compared: &mut Comparison<'_>, text: &str) -> Vec<Block> {
    let mut blocks = Vec::new(alloc);
    let mut number: u64 = 0;
    for line in text.lines() {
        number = number.saturating_add(1);
        if is_read(line) {
            if let Err(why) = add_line(alloc, &mut blocks, number, line) {
                compared.tell(number, why.what());
            }
        }
    }
    blocks
}

fn block_named<'b>(blocks: &'b [Block], is_base: bool, name: &str) -> Option<&'b Block> {
    let mut blocks = blocks.iter();
    blocks.find(|block| block.is_base == is_base && block.name.as_str() == name)
}

/// The entries of a block's base; none where there is no such base.
fn base_of<'b>(blocks: &'b [Block], block: &Block) -> Option<&'b [CaseEntry]> {
    let name = match entry_among(&block.entries, "with") {
        Some(entry) => entry.word(),
        None => return Some(&[]),
    };
    match block_named(blocks, true, name) {
        Some(base) => Some(&base.entries),
        None => None,
    }
}

/// What is wrong with a block by itself, among all of its file.
fn fault_of(blocks: &[Block], block: &Block) -> Option<&'static str> {
    let name = block.name.as_str();
    if name.is_empty() {
        return Some("a case without a name");
    }
    match block_named(blocks, block.is_base, name) {
        Some(first) if first.line != block.line => Some("a second case of this name"),
        _ => None,
    }
}

/// A case of a file, or what is wrong with it.
pub fn case_of<'c>(blocks: &'c [Block], block: &'c Block) -> Result<Case<'c>, &'static str> {
    if let Some(fault) = fault_of(blocks, block) {
        return Err(fault);
    }
    match base_of(blocks, block) {
        Some(base) => Ok(Case {
            line: block.line,
            name: block.name.as_str(),
            base,
            own: &block.entries,
        }),
        None => Err("a base that is not there"),
    }
}
