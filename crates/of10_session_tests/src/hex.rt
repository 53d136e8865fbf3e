//! Streams written in hexadecimal, and what is said to them.

use crate::{Script, Step, speak_bytewise};
use of10_speech::{Spoken, speak};
use std::alloc::{AllocError, Global};
use std::test::Fail;

fn digit(code: u8) -> Option<u8> {
    match code {
        b'0'..=b'9' => Some(code - b'0'),
        b'a'..=b'f' => Some(code - b'a' + 10),
        _ => None,
    }
}

/// Appends the bytes of a text of two digits each; blanks mean nothing.
fn put_text(out: &mut Vec<u8>, text: &[u8]) -> Result<(), AllocError> {
    let mut high = None;
    for code in text {
        match (digit(*code), high) {
            (None, _) => {}
            (Some(low), None) => high = Some(low),
            (Some(low), Some(first)) => {
                out.push((first % 16) * 16 + low % 16)?;
                high = None;
            }
        }
    }
    Ok(())
}

/// Appends the bytes of some texts.
pub fn put_texts(out: &mut Vec<u8>, texts: &[&[u8]]) -> Result<(), AllocError> {
    for text in texts {
        put_text(out, text)?;
    }
    Ok(())
}

/// What is said to these bytes, where the asks are answered by these steps.
pub fn said(
    alloc: Global,
    bytes: &[u8],
    steps: &[Step],
    expires: bool,
    out: &mut Vec<u8>,
) -> Result<Spoken, Fail> {
    let mut script = Script::new(alloc, steps, expires);
    match speak(alloc, 1, bytes, &mut script, out) {
        Ok(spoken) => Ok(spoken),
        Err(_) => Err(Fail::from(AllocError)),
    }
}

/// .. and where the bytes come one by one.
pub fn said_bytewise(
    alloc: Global,
    bytes: &[u8],
    steps: &[Step],
    expires: bool,
    out: &mut Vec<u8>,
) -> Result<Spoken, Fail> {
    let mut script = Script::new(alloc, steps, expires);
    match speak_bytewise(alloc, bytes, &mut script, out) {
        Ok(spoken) => Ok(spoken),
        Err(_) => Err(Fail::from(AllocError)),
    }
}
