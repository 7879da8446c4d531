// The texts about what a run took.
ghost use Rattle.std.specs.Prelude.{◌≡◌, ◌+◌, ◌≤◌, ◌++◌, codes, decimal, length};
ghost use Rattle.arrayvec.specs.ArrayString.{array_string_len};
ghost use Rattle.run_texts.specs.CountTexts.{counts_text, bench_line as line_for, counts_end};

use cam_chain::Counts;
use itoa::Buffer;
use line_text::LineBuf;

// Appends a space, a count and the end of the line.
fn push_count(line: &mut LineBuf, count: u128)
    requires { array_string_len line.old ≤ 190 }
    ensures text { line.new.bytes ≡ line.old.bytes ++ codes " " ++ decimal count ++ codes "\n" }
    ensures room { array_string_len line.new ≤ array_string_len line.old + 42 }
{
    let mut digits = Buffer::new();
    line.push_str(" ");
    line.push_str(digits.format(count));
    line.push_str("\n");
}

/// The lines of the counts.
#[tactic(auto, unfolding(crate::specs::CountTexts::counts_text))]
pub fn counts_lines(retired: u64, counts: Counts) -> LineBuf
    ensures { result.bytes ≡ counts_text retired counts }
{
    let mut lines = LineBuf::new();
    lines.push_str("instructions");
    push_count(&mut lines, u128::from(retired));
    lines.push_str("searches");
    push_count(&mut lines, counts.searches);
    lines.push_str("updates");
    push_count(&mut lines, counts.updates);
    lines.push_str("passes");
    push_count(&mut lines, counts.passes);
    lines
}

// Appends the searches, updates and passes, and the end of the line.
fn push_counts(line: &mut LineBuf, counts: Counts)
    requires { array_string_len line.old ≤ 90 }
    ensures { line.new.bytes ≡ line.old.bytes ++ counts_end counts }
{
    let mut digits = Buffer::new();
    line.push_str(" searches ");
    line.push_str(digits.format(counts.searches));
    line.push_str(" updates ");
    line.push_str(digits.format(counts.updates));
    line.push_str(" passes ");
    line.push_str(digits.format(counts.passes));
    line.push_str("\n");
}

// The seed and the size of a workload, the code that it exited with, and how many instructions retired.
fn run_line(seed: u64, size: u32, code: u8, retired: u64) -> LineBuf
    ensures text { result.bytes ≡ codes "seed " ++ decimal seed ++ codes " size " ++ decimal size ++ codes " exit " ++ decimal code ++ codes " instructions " ++ decimal retired }
    ensures room { array_string_len result ≤ 90 }
{
    let mut line = LineBuf::new();
    let mut digits = Buffer::new();
    line.push_str("seed ");
    line.push_str(digits.format(seed));
    line.push_str(" size ");
    line.push_str(digits.format(size));
    line.push_str(" exit ");
    line.push_str(digits.format(code));
    line.push_str(" instructions ");
    line.push_str(digits.format(retired));
    line
}

/// The line about the run of a workload that exited.
#[tactic(auto, unfolding(crate::specs::CountTexts::bench_line))]
pub fn bench_line(seed: u64, size: u32, code: u8, retired: u64, counts: Counts) -> LineBuf
    ensures { result.bytes ≡ line_for seed size code retired counts }
{
    let mut line = run_line(seed, size, code, retired);
    push_counts(&mut line, counts);
    line
}
