//! Laws of journal texts.
ghost use Rattle.std.specs.Prelude.{◌≡◌, List, Ok, true};
ghost use Rattle.text_lines.specs.Machine.{reading};
ghost use Rattle.journal_text.specs.declared.note.Note.{Note as NoteOf};
ghost use Rattle.journal_text.specs.JournalText.{are_notes, journal_format, journal_text};

/// What is printed of notes reads as these notes.
pub fn journals_read_back()
    ensures { (notes : List NoteOf) → are_notes notes ≡ true → reading journal_format (journal_text notes) ≡ Ok notes }
{}
