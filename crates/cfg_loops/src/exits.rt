// A claimed loop adds ONE to each deferred target in its exit list, once.
ghost use Rattle.std.specs.Prelude.{◌≡◌};
ghost use Rattle.nesting.specs.Nesting.{exit_targets};
ghost use Rattle.meaning.specs.Lists.{is_in};
ghost use Rattle.record.specs.Stands.{OfRecord};
ghost use Rattle.cfg_loops.specs.Exits as words;

use state_sets::sets::{
    accumulated_count, bundle_at, set_accumulated_count, set_length, set_start, target,
};
use state_words::bundle_numbers::BundleNumber;
use state_words::edges::ONE;
use store::WORDS;

fn is_exit_target(w: &[u16; WORDS], r: u16, t: u16) -> bool
    ensures { OfRecord w.now (λ g. result ≡ is_in t (exit_targets g r)) }
{
    (0..fields::exit_count(w, r)).any(|k| fields::exit_target(w, r, k) == t)
}

fn add_exit_edge(w: &mut [u16; WORDS], r: u16, p: BundleNumber)
    ensures { OfRecord w.old (λ g. w.new ≡ words.exit_added g r p.0 w.old) }
{
    if is_exit_target(w, r, target(w, p)) {
        let n = accumulated_count(w, p);
        set_accumulated_count(w, p, n.plus(ONE));
    }
}

pub fn add_exit_edges(w: &mut [u16; WORDS], r: u16)
    ensures { OfRecord w.old (λ g. w.new ≡ words.exits_added g r w.old) }
{
    let start = set_start(w, r);
    for i in 0..set_length(w, r) {
        add_exit_edge(w, r, bundle_at(start, i));
    }
}
