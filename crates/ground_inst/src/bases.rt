//! The first free constant of each sort.

ghost use Rattle.std.specs.Prelude.{◌≡◌, ◌+◌, max, IfOk};
ghost use Rattle.csdn_core.specs.declared.terms.Sort.{Sort as AnySort};
ghost use Rattle.fol_forms.specs.Constants.{one_if};
ghost use Rattle.fol_forms.specs.Counts.{count_of};

use csdn_core::terms::Sort;
use fol_forms::instances::Counts;
use std::alloc::AllocError;

/// One more of a sort. `AllocError` where there are 2^64 - 1.
#[tactic(auto, unfolding(fol_forms::specs::Counts::count_of))]
pub fn one_more(counts: Counts, sort: Sort) -> Result<Counts, AllocError>
    ensures { IfOk result (λ more. (t : AnySort) → count_of more t ≡ count_of counts t + one_if sort t) }
{
    match sort {
        Sort::Sw => {
            let sw = counts.sw.checked_add(1).ok_or(AllocError)?;
            Ok(Counts { sw, ..counts })
        }
        Sort::Ho => {
            let ho = counts.ho.checked_add(1).ok_or(AllocError)?;
            Ok(Counts { ho, ..counts })
        }
        Sort::Pr => {
            let pr = counts.pr.checked_add(1).ok_or(AllocError)?;
            Ok(Counts { pr, ..counts })
        }
    }
}

/// The larger number of each sort.
#[tactic(auto, unfolding(fol_forms::specs::Counts::count_of))]
pub fn larger(a: Counts, b: Counts) -> Counts
    ensures { (t : AnySort) → count_of result t ≡ max (count_of a t) (count_of b t) }
{
    Counts {
        sw: a.sw.max(b.sw),
        ho: a.ho.max(b.ho),
        pr: a.pr.max(b.pr),
    }
}
