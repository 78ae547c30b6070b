//! Prints what is made from the table of options: the completion for a shell, or the manual page. Each word
//! names a text, and they are printed one behind the other: `bash`, `zsh`, `fish`, `man`.
//! Called by no crate: its stored output is cut into files; texts may be added behind, none has a clause.
#![tactic(auto)]

mod bash;
mod commands;
mod fish;
mod manual;
mod zsh;

use bash::push_bash;
use fish::push_fish;
use manual::push_manual;
use std::process::ExitCode;
use std::{env, io};
use zsh::push_zsh;

/// Prints the text that a word names, and says whether there is one.
fn print_text(rt: &HostRuntime, word: &str) -> io::Result<bool> {
    let mut text = String::new(rt.alloc());
    match word {
        "bash" => push_bash(&mut text)?,
        "zsh" => push_zsh(&mut text)?,
        "fish" => push_fish(&mut text)?,
        "man" => push_manual(&mut text)?,
        _ => {
            eprintln!(rt; "{word}: no such text; there are bash, zsh, fish and man")?;
            return Ok(false);
        }
    }
    print!(rt; "{}", text.as_str())?;
    Ok(true)
}

fn print_texts(rt: &HostRuntime) -> io::Result<bool> {
    let words: Vec<String> = env::args(rt)?.skip(1).collect(rt.alloc())?;
    let mut are_all = true;
    for word in &words {
        are_all = print_text(rt, word.as_str())? & are_all;
    }
    Ok(are_all)
}

fn main(rt: HostRuntime) -> ExitCode {
    match print_texts(&rt) {
        Ok(true) => ExitCode::from(0),
        Ok(false) => ExitCode::from(1),
        Err(error) => {
            let _ = eprintln!(rt; "{error}");
            ExitCode::from(1)
        }
    }
}
