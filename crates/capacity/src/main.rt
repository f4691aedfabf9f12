// Reads keys, one a line, and tells how large a table they need.
#![tactic(auto)]

use keys::{Card, Code, Key};
use sizing::capacity_for;
use sizing::lines::{KeyLine, Route};
use std::io;
use std::io::{BufRead, BufReader};

fn main(rt: HostRuntime) -> io::Result<()> {
    let mut cards: Vec<Card> = Vec::new(rt.alloc());
    let mut codes: Vec<Code> = Vec::new(rt.alloc());
    let lines = BufReader::new(rt.alloc(), rt.stdin())?.split(rt.alloc(), b'\n');
    for (line, number) in lines.zip(1..=u64::MAX) {
        let line = line?;
        match KeyLine::try_from(line.as_slice()) {
            Ok(KeyLine::OfCard(card)) => take_key(&rt, line.as_slice(), card, &mut cards)?,
            Ok(KeyLine::OfCode(code)) => take_key(&rt, line.as_slice(), code, &mut codes)?,
            Err(refusal) => println!(rt; "{refusal} line={number}")?,
        }
    }
    show_figures(&rt, "card", cards.as_slice())?;
    show_figures(&rt, "code", codes.as_slice())
}

// Prints the line of a key with its hash and its route, and keeps the key.
fn take_key<K: Key>(rt: &HostRuntime, line: &[u8], key: K, keys: &mut Vec<K>) -> io::Result<()> {
    let text = String::from_utf8_lossy(rt.alloc(), line)?;
    let hash = key.hash();
    let route = Route(hash);
    println!(rt; "{text} hash={hash:#010x} route={route}")?;
    keys.push(key)?;
    Ok(())
}

// What a table of these keys needs, and whether a table may be so large.
fn show_figures<K: Key>(rt: &HostRuntime, kind: &str, keys: &[K]) -> io::Result<()> {
    let needs = capacity_for(rt.alloc(), keys)?;
    match needs.within_limits() {
        Ok(_) => println!(rt; "keys={kind} {needs}"),
        Err(refusal) => println!(rt; "keys={kind} {needs} {refusal}"),
    }
}
