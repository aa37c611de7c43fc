// A select and what follows it, the Rust's structurize_select_into: plan, define the select if it is needed, emit what it defers,
// replace inputs. The sole convergent case goes after it.
ghost use Rattle.std.specs.Prelude.{◌≡◌};
ghost use Rattle.record.specs.Stands.{OfRecord};
ghost use Rattle.cfg_selects.specs.Into as words;

use cfg_bundles::append::append_maybe_claimed_region;
use cfg_cases::cases::unclaimed_case;
use cfg_emits::emit::emit_bundles;
use cfg_merging::rewriting::rewrite_cases;
use cfg_merging::targets::deferred_targets;
use cfg_planning::planning::plan_bundles;
use cfg_select_nodes::cases::{any_non_empty_case, convergent_case, replace_inputs};
use cfg_select_nodes::define::{Scrutinee, define_select};
use state_regions::cases::{CaseKind, case_at, set_case};
use state_sets::sets::{SPARE, put_set_length, set_length, swap_sets};
use state_words::bundle_numbers::BundleNumber;
use state_words::defined::TooMany;
use state_words::handles::Handle;
use store::WORDS;

fn select_if(
    w: &mut [u16; WORDS],
    needed: bool,
    r: u16,
    shape: u16,
    scrutinee: Scrutinee,
) -> Result<(), TooMany>
    ensures { OfRecord w.old (λ g. words.SelectIf g needed r shape scrutinee w.old w.new result) }
{
    if !needed {
        return Ok(());
    }
    let h = define_select(w, r, shape, scrutinee)?;
    emit_bundles(w, Handle(h))
}

// With no convergent case set aside. What the cases defer stands in the spare slot.
fn structurize_select(
    w: &mut [u16; WORDS],
    r: u16,
    shape: u16,
    scrutinee: Scrutinee,
) -> Result<(), TooMany>
    ensures { OfRecord w.old (λ g. words.StructurizesSelect g r shape scrutinee w.old w.new result) }
{
    let full = any_non_empty_case(w);
    rewrite_cases(w);
    deferred_targets(w);
    let merged = plan_bundles(w);
    let needed = full || merged;
    select_if(w, needed, r, shape, scrutinee)?;
    replace_inputs(w);
    Ok(())
}

// The set that was made in the spare slot becomes region r's.
fn take_spare(w: &mut [u16; WORDS], r: u16)
    ensures { w.new ≡ words.spare_taken w.old r }
{
    let n = set_length(w, SPARE);
    swap_sets(w, r, SPARE);
    put_set_length(w, r, n);
}

// The sole convergent case goes after the select; its deferred edges come back as they were.
pub fn structurize_select_into(
    w: &mut [u16; WORDS],
    r: u16,
    shape: u16,
    scrutinee: Scrutinee,
) -> Result<(), TooMany>
    ensures { OfRecord w.old (λ g. words.StructurizesInto g r shape scrutinee w.old w.new result) }
{
    if let Some(j) = convergent_case(w) {
        let x = case_at(w, j);
        set_case(
            w,
            j,
            unclaimed_case(CaseKind::NothingDeferred, BundleNumber(0), 0),
        );
        structurize_select(w, r, shape, scrutinee)?;
        append_maybe_claimed_region(w, r, x, j);
        return Ok(());
    }
    structurize_select(w, r, shape, scrutinee)?;
    take_spare(w, r);
    Ok(())
}
