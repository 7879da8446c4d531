// The text about the layout of an image: its entry, and its pages.
ghost use Rattle.std.specs.Prelude.{◌≡◌, ◌+◌, ◌-◌, ◌/◌, ◌<◌, ◌≤◌, ◌++◌, false, if◌then◌else◌, map, is_ok};
ghost use Rattle.std.specs.Option.{option_map};
ghost use Rattle.arrayvec.specs.ArrayString.{array_string_len};
ghost use Rattle.cape_io.specs.Views.{Writes};
ghost use Rattle.guest_mem.specs.Pages.{page_size};
ghost use Rattle.guest_mem.specs.Spans.{span_of, is_mapped, page_perms, page_numbers};
ghost use Rattle.report_texts.specs.Layouts.{perms_of, same_perms, letters, entry_line, map_line, line_of_run, map_lines, layout_text, IsSteady, IsRun};

use crate::text::{push_word, write_line};
use bitflags::Flags;
use cape_io::{Failed, Sink};
use guest_mem::{PAGE_SIZE, PAGES, Perms, Region};
use line_text::LineBuf;

// The page after the last page of a region.
fn page_after(region: &Region) -> u32
    ensures { result ≡ (region.now.start + region.now.len + (page_size - 1)) / page_size }
{
    let end = u64::from(region.start) + u64::from(region.len);
    end.div_ceil(u64::from(PAGE_SIZE)) as u32
}

// Whether a page is mapped.
fn is_mapped(regions: &[Region], page: u32) -> bool
    ensures { result ≡ is_mapped (map span_of regions.now) page }
{
    regions.iter().any(|region| region.span().meets(page))
}

// The permissions that a page gets of the regions that meet it: their union.
fn union_at(regions: &[Region], page: u32) -> Perms
    ensures { result.0 ≡ page_perms (map span_of regions.now) page }
{
    let mut perms = Perms::from_bits_retain(0);
    for region in regions {
        if region.span().meets(page) {
            perms.insert(region.perms);
        }
    }
    perms
}

// The permissions of a page, where it is mapped.
fn perms_at(regions: &[Region], page: u32) -> Option<Perms>
    ensures { option_map (λ p. p.0) result ≡ perms_of (map span_of regions.now) page }
{
    if is_mapped(regions, page) {
        Some(union_at(regions, page))
    } else {
        None
    }
}

// The next page at which a region begins or is over, or the number of pages where neither comes any more.
fn edge_after(region: &Region, page: u32) -> u32
    requires { page < page_numbers }
    ensures later { page < result }
    ensures bound { result ≤ page_numbers }
    ensures steady { IsSteady page result (span_of region.now) }
{
    let first = region.span().first_page();
    let after = page_after(region);
    if page < first {
        first
    } else if page < after {
        after.min(PAGES)
    } else {
        PAGES
    }
}

// The next page at which some region begins or is over, or the number of pages.
fn next_edge(regions: &[Region], page: u32) -> u32
    requires { page < page_numbers }
    ensures later { page < result }
    ensures bound { result ≤ page_numbers }
    ensures run { IsRun (map span_of regions.now) page result }
{
    let mut edge = PAGES;
    for region in regions {
        edge = edge.min(edge_after(region, page));
    }
    edge
}

// The page after the longest run of pages from the first on with the permissions of the first.
fn run_end(regions: &[Region], first: u32) -> u32
    requires { first < page_numbers }
    ensures later { first < result }
    ensures bound { result ≤ page_numbers }
    ensures run { IsRun (map span_of regions.now) first result }
    ensures longest { result < page_numbers →
        same_perms (perms_of (map span_of regions.now) result) (perms_of (map span_of regions.now) first) ≡ false }
{
    let perms = perms_at(regions, first);
    let mut page = next_edge(regions, first);
    while page < PAGES && perms_at(regions, page) == perms {
        page = next_edge(regions, page);
    }
    page
}

// The letter of a permission that is there, and a dash for one that is not.
fn glyph(is_there: bool, letter: char) -> char
    requires { letter < 128 }
    ensures code { result ≡ (if is_there then letter else 45) }
    ensures ascii { result < 128 }
{
    if is_there { letter } else { '-' }
}

// Appends the letters of permissions.
fn push_letters(line: &mut LineBuf, perms: Perms)
    requires { array_string_len line.old + 3 ≤ 240 }
    ensures text { line.new.bytes ≡ line.old.bytes ++ letters perms.0 }
    ensures room { array_string_len line.new ≡ array_string_len line.old + 3 }
{
    line.push(glyph(perms.contains(Perms::READ), 'r'));
    line.push(glyph(perms.contains(Perms::WRITE), 'w'));
    line.push(glyph(perms.contains(Perms::EXECUTE), 'x'));
}

// The line about the pages from the first on and before another.
#[tactic(auto, using(crate::proofs::LayoutLemmas::hex_word_wraps))]
fn map_line(first: u32, after: u32, perms: Perms) -> LineBuf
    requires start { first < page_numbers }
    requires end { after ≤ page_numbers }
    ensures { result.bytes ≡ map_line first after perms.0 }
{
    let mut line = LineBuf::new();
    line.push_str("map ");
    push_word(&mut line, first * PAGE_SIZE);
    line.push_str(" ");
    // The end of the last page, 2^32, has the digits of 0.
    push_word(&mut line, after.wrapping_mul(PAGE_SIZE));
    line.push_str(" ");
    push_letters(&mut line, perms);
    line.push_str("\n");
    line
}

// The line about the entry.
fn entry_line(entry: u32) -> LineBuf
    ensures { result.bytes ≡ entry_line entry }
{
    let mut line = LineBuf::new();
    line.push_str("ok entry ");
    push_word(&mut line, entry);
    line.push_str("\n");
    line
}

// Writes the line of a run of pages, if they are mapped.
#[tactic(auto, using(cape_io::proofs::Writing::writes_none))]
fn write_run<O: Sink>(regions: &[Region], first: u32, after: u32, out: &mut O) -> Result<(), Failed>
    requires start { first < page_numbers }
    requires end { after ≤ page_numbers }
    ensures { Writes O.Sink (line_of_run (perms_of (map span_of regions.now) first) first after) (is_ok result) out.old out.new }
{
    match perms_at(regions, first) {
        Some(perms) => write_line(&map_line(first, after, perms), out),
        None => Ok(()),
    }
}

// Writes the lines of all runs, in rising order.
fn write_maps<O: Sink>(regions: &[Region], out: &mut O) -> Result<(), Failed>
    ensures { Writes O.Sink (map_lines (map span_of regions.now)) (is_ok result) out.old out.new }
{
    let mut first = 0;
    while first < PAGES {
        let after = run_end(regions, first);
        write_run(regions, first, after, out)?;
        first = after;
    }
    Ok(())
}

/// Writes `ok entry X`, and then a line `map X X rwx` for each longest run of neighbouring pages of equal permissions,
/// in rising order. The second number is the end, which is not of the run. It puts a piece for each line; at `Failed` it
/// wrote some prefix of the text.
pub fn write_layout<O: Sink>(entry: u32, regions: &[Region], out: &mut O) -> Result<(), Failed>
    ensures { Writes O.Sink (layout_text entry (map span_of regions.now)) (is_ok result) out.old out.new }
{
    write_line(&entry_line(entry), out)?;
    write_maps(regions, out)
}
