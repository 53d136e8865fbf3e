//! `show PROGRAM`: a program in one form.
ghost use Rattle.std.specs.Prelude.{◌≡◌, [], ◌∷◌, IfOk};
ghost use Rattle.file_loads.specs.declared.read.FileKind.TheVariants.{Program};
ghost use Rattle.file_loads.specs.Status.{code_of};
ghost use Rattle.file_loads.specs.Views.{OnlyReads, change_of};
ghost use Rattle.file_loads.specs.Explained.{IsExplained};
ghost use Rattle.vericon_app.specs.Show.{PrintedOutput, ShowOutput};

use csdn_print::print;
use csdn_tree::syntax::RawProgram;
use file_loads::load::load_tree;
use file_loads::outcome::{Outcome, Status};
use file_loads::read::Load;
use std::alloc::{AllocError, Global};
use vericon_edge::files::Files;

/// The printed text of a tree.
fn show_tree(alloc: Global, tree: &RawProgram) -> Result<Outcome, AllocError>
    ensures { IfOk result (λ outcome. PrintedOutput tree.now outcome.text.items (code_of outcome.status)) }
{
    let text = print(alloc, tree)?;
    Ok(Outcome {
        text,
        status: Status::Done,
    })
}

/// What `show` says of a file (docs/COMMANDS.md, "show"). It reads at most once.
pub fn show<F: Files>(alloc: Global, files: &mut F, name: &str) -> Result<Outcome, AllocError>
    ensures output { IfOk result (λ outcome. IsExplained (change_of F.told F.read_calls F.write_calls F.read_faults F.write_faults files.old files.new) (record { kind = Program; name = name.now } ∷ []) (ShowOutput name.now) outcome.text.items (code_of outcome.status)) }
    ensures reads { OnlyReads 1 (change_of F.told F.read_calls F.write_calls F.read_faults F.write_faults files.old files.new) }
{
    match load_tree(alloc, files, name)? {
        Load::Loaded(tree) => show_tree(alloc, &tree),
        Load::Refused(outcome) => Ok(outcome),
    }
}
