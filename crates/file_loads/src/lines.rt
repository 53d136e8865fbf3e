//! The lines that say why a call has no more to say.
ghost use Rattle.std.specs.Prelude.{◌≡◌, IfOk};
ghost use Rattle.file_loads.specs.declared.read.FileKind.TheVariants.{Frames};
ghost use Rattle.file_loads.specs.Lines.{Says, word_of, too_long_text, usage_text, missing_text, read_fault_text, refused_text, refused_line_text};

use crate::outcome::{Outcome, Status};
use csdn_read::ProgramWhy;
use std::alloc::{AllocError, Global};
use text_lines::{put_line_end, put_number, put_word};

/// `usage`, with status 6.
pub fn usage(alloc: Global) -> Result<Outcome, AllocError>
    ensures { IfOk result (Says usage_text 6) }
{
    let mut text = Vec::new(alloc);
    put_word(&mut text, b"usage")?;
    put_line_end(&mut text)?;
    Ok(Outcome {
        text,
        status: Status::Usage,
    })
}

/// `missing NAME`, with status 5.
pub fn missing(alloc: Global, name: &str) -> Result<Outcome, AllocError>
    ensures { IfOk result (Says (missing_text name.now) 5) }
{
    let mut text = Vec::new(alloc);
    put_word(&mut text, b"missing ")?;
    put_word(&mut text, name.as_bytes())?;
    put_line_end(&mut text)?;
    Ok(Outcome {
        text,
        status: Status::ReadFault,
    })
}

/// `read fault NAME`, with status 5.
pub fn read_fault(alloc: Global, name: &str) -> Result<Outcome, AllocError>
    ensures { IfOk result (Says (read_fault_text name.now) 5) }
{
    let mut text = Vec::new(alloc);
    put_word(&mut text, b"read fault ")?;
    put_word(&mut text, name.as_bytes())?;
    put_line_end(&mut text)?;
    Ok(Outcome {
        text,
        status: Status::ReadFault,
    })
}

/// The word that is printed for a reason.
fn word(why: ProgramWhy) -> &'static [u8]
    ensures { result.now ≡ word_of why }
{
    match why {
        ProgramWhy::TooLong => b"TooLong",
        ProgramWhy::BadByte => b"BadByte",
        ProgramWhy::BadName => b"BadName",
        ProgramWhy::BadNumber => b"BadNumber",
        ProgramWhy::Unexpected => b"Unexpected",
        ProgramWhy::TooDeep => b"TooDeep",
        ProgramWhy::Duplicate => b"Duplicate",
        ProgramWhy::Unknown => b"Unknown",
        ProgramWhy::WrongArity => b"WrongArity",
        ProgramWhy::WrongSort => b"WrongSort",
        ProgramWhy::NotAllowed => b"NotAllowed",
        ProgramWhy::TooMany => b"TooMany",
    }
}

/// `NAME refused at AT: WHY`, with status 3: a program is refused at this byte.
pub fn refused(alloc: Global, name: &str, at: usize, why: ProgramWhy) -> Result<Outcome, AllocError>
    ensures { IfOk result (Says (refused_text name.now at why) 3) }
{
    let mut text = Vec::new(alloc);
    put_word(&mut text, name.as_bytes())?;
    put_word(&mut text, b" refused at ")?;
    put_number(&mut text, at as u64)?;
    put_word(&mut text, b": ")?;
    put_word(&mut text, word(why))?;
    put_line_end(&mut text)?;
    Ok(Outcome {
        text,
        status: Status::Refused,
    })
}

/// `NAME refused: TooLong`, with status 3: what is said of files but programs that are longer than they may be.
pub fn too_long(alloc: Global, name: &str) -> Result<Outcome, AllocError>
    ensures { IfOk result (Says (too_long_text Frames name.now) 3) }
{
    let mut text = Vec::new(alloc);
    put_word(&mut text, name.as_bytes())?;
    put_word(&mut text, b" refused: TooLong\n")?;
    Ok(Outcome {
        text,
        status: Status::Refused,
    })
}

/// `NAME refused line LINE`, with status 3: a journal or a log is refused at this line.
pub fn refused_line(alloc: Global, name: &str, line: u64) -> Result<Outcome, AllocError>
    ensures { IfOk result (Says (refused_line_text name.now line) 3) }
{
    let mut text = Vec::new(alloc);
    put_word(&mut text, name.as_bytes())?;
    put_word(&mut text, b" refused line ")?;
    put_number(&mut text, line)?;
    put_line_end(&mut text)?;
    Ok(Outcome {
        text,
        status: Status::Refused,
    })
}
