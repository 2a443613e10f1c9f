//! What is answered to a line: the router-LSAs that a live file says of an area, or why it is refused.
use case_scripts::bytes_of;
use live_reader::read_live;
use lsa_bytes::{Body, Lsa, LsaDatabase, LsaLink};
use std::alloc::{AllocError, Global};
use text_lines::area;

/// The greatest length of a live file: 64 MiB.
const GREATEST_LENGTH: usize = 1 << 26;

/// A link: its type, its ID, its data and its metric.
fn link_text(alloc: Global, link: &LsaLink) -> Result<String, AllocError> {
    format!(in alloc;
        " [{} {} {} {}]",
        link.kind, link.id, link.address, link.metric
    )
}

/// The links of a router-LSA; nothing of another one.
fn push_lsa(alloc: Global, text: &mut String, lsa: &Lsa) -> Result<(), AllocError> {
    if let Body::Links(links) = &lsa.body {
        text.push_str(format!(in alloc; "; {} {}", lsa.id, lsa.router)?.as_str())?;
        for link in links.as_slice() {
            text.push_str(link_text(alloc, link)?.as_str())?;
        }
    }
    Ok(())
}

/// The LSAs that count.
fn lsas_text(alloc: Global, live: &LsaDatabase) -> Result<String, AllocError> {
    let mut text = String::new(alloc);
    text.push_str("LSAs")?;
    for lsa in live.as_slice() {
        push_lsa(alloc, &mut text, lsa)?;
    }
    Ok(text)
}

/// What a file says of an area.
fn file_text(alloc: Global, number: u32, bytes: &[u8]) -> Result<String, AllocError> {
    if bytes.len() > GREATEST_LENGTH {
        return format!(in alloc; "too long");
    }
    match read_live(alloc, bytes, number) {
        Ok(live) => lsas_text(alloc, &live),
        Err(refusal) => format!(in alloc; "{refusal}"),
    }
}

/// What is answered to a line: an area, a space and a file.
pub(crate) fn answer(alloc: Global, line: &str) -> Result<String, AllocError> {
    let Some((word, text)) = line.split_once(' ') else {
        return format!(in alloc; "no line of a script");
    };
    let Some(number) = area(word.as_bytes()) else {
        return format!(in alloc; "no area");
    };
    let bytes = bytes_of(alloc, text)?;
    file_text(alloc, number, bytes.as_slice())
}
