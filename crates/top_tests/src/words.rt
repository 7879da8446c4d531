// The words of a command line. What they name is worked out by hand from the grammar.
use command_words::{Command, ImageCommand, RunOptions, Workload, command_of};
use std::alloc::Global;
use std::test::Fail;
use vtype_cfg::Policy;

// Words, parted by spaces, and the command that they are.
#[derive(Clone, Copy)]
struct Row {
    words: &'static str,
    command: Command,
}

// A run that is given no option.
const PLAIN: RunOptions = RunOptions {
    steps: 1_000_000_000,
    state: false,
    counts: false,
    work: false,
    vlen: 1024,
    policy: Policy::Keep,
};

const ROWS: [Row; 11] = [
    Row {
        words: "run A",
        command: Command::OnImage(ImageCommand::Run(PLAIN)),
    },
    Row {
        words: "run A --vlen 0064",
        command: Command::OnImage(ImageCommand::Run(RunOptions { vlen: 64, ..PLAIN })),
    },
    Row {
        words: "run A --agnostic keep --vlen 65536",
        command: Command::OnImage(ImageCommand::Run(RunOptions {
            vlen: 65_536,
            ..PLAIN
        })),
    },
    Row {
        words: "run A --steps 00000001000000000000",
        command: Command::OnImage(ImageCommand::Run(RunOptions {
            steps: 1_000_000_000_000,
            ..PLAIN
        })),
    },
    Row {
        words: "run A --state --vlen 32 --agnostic ones --steps 5",
        command: Command::OnImage(ImageCommand::Run(RunOptions {
            steps: 5,
            state: true,
            vlen: 32,
            policy: Policy::Ones,
            ..PLAIN
        })),
    },
    Row {
        words: "run A --counts",
        command: Command::OnImage(ImageCommand::Run(RunOptions {
            counts: true,
            ..PLAIN
        })),
    },
    Row {
        words: "run A --work --state --counts",
        command: Command::OnImage(ImageCommand::Run(RunOptions {
            state: true,
            counts: true,
            work: true,
            ..PLAIN
        })),
    },
    Row {
        words: "check A",
        command: Command::OnImage(ImageCommand::Check),
    },
    Row {
        words: "gen 18446744073709551615 4096",
        command: Command::Gen(Workload {
            seed: 18_446_744_073_709_551_615,
            size: 4096,
        }),
    },
    Row {
        words: "bench 0 00000000000000000001",
        command: Command::Bench(Workload { seed: 0, size: 1 }),
    },
    Row {
        words: "help",
        command: Command::Help,
    },
];

// Whether the words of a row are its command.
fn is_command(alloc: Global, row: &Row) -> Result<bool, Fail> {
    let mut words = Vec::new(alloc);
    for word in row.words.split_whitespace() {
        words.push(String::from_str(alloc, word)?)?;
    }
    Ok(command_of(words.as_slice()) == Some(row.command))
}

#[test]
fn commands_are_read_with_their_options(rt: HostRuntime) -> Result<(), Fail> {
    for (i, row) in ROWS.iter().enumerate() {
        assert!(rt; is_command(rt.alloc(), row)?, "row {i}");
    }
    Ok(())
}
