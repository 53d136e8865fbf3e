//! The law that printed blocks read back.

ghost use Rattle.std.specs.Prelude.{◌≡◌, List, Ok, true};
ghost use Rattle.text_lines.specs.Machine.{reading};
ghost use Rattle.log_text.specs.declared.block.Block.{Block as BlockOf};
ghost use Rattle.log_text.specs.LogText.{are_blocks, log_format, log_text};

/// What is printed of blocks reads as these blocks.
pub fn logs_read_back()
    ensures { (blocks : List BlockOf) → are_blocks blocks ≡ true → reading log_format (log_text blocks) ≡ Ok blocks }
{}
