//! The words that a process was called with.
use std::alloc::Global;
use std::env::{Env, FillError, args};
use std::io::ErrorKind;
use thiserror::Error;

/// Why there are no words.
#[derive(Clone, Copy, Debug, PartialEq, Eq, Error)]
pub enum WordsFault {
    /// There was no memory for them.
    #[error("out of memory")]
    Memory,
    /// One of them isn't UTF-8.
    #[error("a word is no text")]
    NotText,
}

/// The arguments of a process without the first, which is the program's own name.
#[derive(Drop)]
struct WithoutName<'a, R> {
    env: &'a R,
}

impl<R: Env> Env for WithoutName<'_, R> {
    fn arg(&self, i: usize, buf: &mut [u8]) -> Result<usize, FillError> {
        match i.checked_add(1) {
            Some(behind) => self.env.arg(behind, buf),
            None => Err(FillError::NotPresent),
        }
    }

    fn var(&self, name: &str, buf: &mut [u8]) -> Result<usize, FillError> {
        self.env.var(name, buf)
    }

    fn var_at(&self, i: usize, buf: &mut [u8]) -> Result<usize, FillError> {
        self.env.var_at(i, buf)
    }
}

/// The words behind the program's name, which may be any bytes.
///
/// Errors: `NotText`, where one of the words isn't UTF-8; and `Memory`.
pub fn host_words<R: Env>(alloc: Global, env: &R) -> Result<Vec<String>, WordsFault> {
    let words = match args(&(WithoutName { env }, alloc)) {
        Ok(words) => words,
        Err(error) if error.kind() == ErrorKind::InvalidData => return Err(WordsFault::NotText),
        Err(_) => return Err(WordsFault::Memory),
    };
    let mut listed = Vec::new(alloc);
    for word in words {
        if listed.push(word).is_err() {
            return Err(WordsFault::Memory);
        }
    }
    Ok(listed)
}

#[cfg(test)]
mod tests {
    use super::*;
    use std::test::Fail;

    /// A process with these arguments.
    #[derive(Drop)]
    struct Called {
        arguments: [&'static [u8]; 3],
    }

    impl Env for Called {
        fn arg(&self, i: usize, buf: &mut [u8]) -> Result<usize, FillError> {
            let Some(argument) = self.arguments.get(i) else {
                return Err(FillError::NotPresent);
            };
            if argument.len() > buf.len() {
                return Err(FillError::TooLong);
            }
            buf[..argument.len()].copy_from_slice(argument);
            Ok(argument.len())
        }

        fn var(&self, _name: &str, _buf: &mut [u8]) -> Result<usize, FillError> {
            Err(FillError::NotPresent)
        }

        fn var_at(&self, _i: usize, _buf: &mut [u8]) -> Result<usize, FillError> {
            Err(FillError::NotPresent)
        }
    }

    #[test]
    fn the_name_of_the_program_may_be_any_bytes(rt: HostRuntime) -> Result<(), Fail> {
        let called = Called {
            arguments: [b"d\xff/vericon", b"show", b"armed.csdn"],
        };
        let words = host_words(rt.alloc(), &called)?;
        assert_eq!(rt; words.len(), 2);
        assert_eq!(rt; words[0].as_str(), "show");
        assert_eq!(rt; words[1].as_str(), "armed.csdn");
        let no_text = Called {
            arguments: [b"vericon", b"show", b"\xff"],
        };
        assert_eq!(rt; host_words(rt.alloc(), &no_text).is_err(), true);
        Ok(())
    }
}
