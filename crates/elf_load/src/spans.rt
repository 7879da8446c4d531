// How many pages ranges meet, and what permissions a page gets of them.
ghost use Rattle.std.specs.Prelude.{◌≡◌, ◌≤◌, ◌+◌, ◌^◌, true};
ghost use Rattle.std.specs.List.{list_all};
ghost use Rattle.guest_mem.specs.Spans.{is_mapped, page_perms};
ghost use Rattle.elf_load.specs.Layout.{apart, all_apart, none_wraps, pages_added, page_count};

use bitflags::Flags;
use guest_mem::{Perms, Span};

// A page is met by some range.
fn any_meets(spans: &[Span], page: u32) -> bool
    ensures { result ≡ is_mapped spans.now page }
{
    spans.iter().any(|s| s.meets(page))
}

// How many pages a range meets that none of the ranges before it does. It shares no byte with these, so each page that
// lies strictly inside it is new.
#[tactic(auto, using(crate::proofs::Pages::new_page_cases))]
fn new_pages(before: &[Span], span: &Span) -> u32
    requires fits { span.now.start + span.now.len ≤ 2 ^ 32 }
    requires apart { list_all (λ a. apart a span.now) before.now ≡ true }
    ensures { result ≡ pages_added before.now span.now }
{
    if span.len == 0 {
        return 0;
    }
    let first = span.first_page();
    let last = span.last_page();
    let first_is_new = u32::from(!any_meets(before, first));
    if first == last {
        return first_is_new;
    }
    let last_is_new = u32::from(!any_meets(before, last));
    last - first - 1 + (first_is_new + last_is_new)
}

/// How many pages are met by ranges that share no byte.
#[tactic(auto, using(crate::proofs::Pages::page_count_steps))]
pub fn pages_met(spans: &[Span]) -> u32
    requires apart { all_apart spans.now ≡ true }
    requires inside { none_wraps spans.now ≡ true }
    ensures { result ≡ page_count spans.now }
{
    let mut count = 0;
    for (k, s) in spans.iter().enumerate() {
        count += new_pages(&spans[..k], s);
    }
    count
}

/// The permissions of a page: those of each range that meets it.
#[tactic(auto, using(guest_mem::proofs::Meeting::page_perms_steps))]
pub fn perms_of_page(spans: &[Span], page: u32) -> Perms
    ensures { result.0 ≡ page_perms spans.now page }
{
    let mut perms = Perms::empty();
    for s in spans {
        if s.meets(page) {
            perms = perms.union(s.perms);
        }
    }
    perms
}
